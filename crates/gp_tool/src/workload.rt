//! Which workload the words name.

ghost use Rattle.std.specs.Prelude.{◌<◌, ◌≤◌, ◌^◌, ◌↔◌, ℕ, IsTrue, MatchOption, string_bytes};
ghost use Rattle.gp_tool.specs.Mill.{IsNumber, NameWorkload};

use crate::bytes::begins_with;

/// A workload: the seed of its generator, and how many rounds it has.
#[derive(Clone, Copy)]
pub struct Workload {
    pub seed: u64,
    pub rounds: u32,
}

/// How many digits a seed has, at most.
const SEED_DIGITS: usize = 20;

/// How many digits a number of rounds has, at most.
const ROUNDS_DIGITS: usize = 5;

// A number in so many digits at most, and without the sign that a number which is parsed may have.
fn read_number(word: &String, most: usize) -> Option<u64>
    ensures { MatchOption result ((n : ℕ) → n < 2 ^ 64 → IsNumber most (string_bytes word.now) n → ⊥) (λ n. IsNumber most (string_bytes word.now) n) }
{
    if begins_with(word.as_bytes(), b'+') || word.len() > most {
        return None;
    }
    word.parse().ok()
}

fn is_count(number: u64) -> bool
    ensures { IsTrue result ↔ ((1 ≤ number) × (number ≤ 10_000)) }
{
    (1..=10_000).contains(&number)
}

/// The workload that a seed and a number of rounds name.
pub fn read_workload(seed: &String, rounds: &String) -> Option<Workload>
    ensures { MatchOption result ((work : Workload) → NameWorkload (string_bytes seed.now) (string_bytes rounds.now) work → ⊥)
        (λ work. NameWorkload (string_bytes seed.now) (string_bytes rounds.now) work) }
{
    let seed = read_number(seed, SEED_DIGITS)?;
    let rounds = read_number(rounds, ROUNDS_DIGITS)?;
    if !is_count(rounds) {
        return None;
    }
    Some(Workload {
        seed,
        rounds: rounds as u32,
    })
}
