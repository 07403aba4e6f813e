//! The workload: rounds of lines that ChaCha20 chooses (this profile's own).

ghost use Rattle.std.specs.Prelude.{◌≡◌, ◌∷◌, ◌↔◌, [], IsTrue, MatchOption, false};
ghost use Rattle.script_lines.specs.Mill.{after, after_round, round_of, to_come, word, workload};

use crate::round::{MillLine, Round};
use arrayvec::ArrayVec;
use rand_chacha::ChaCha20Rng;
use rand_core::SeedableRng;
use rand_core::utils::NextWord;

/// How many bytes a line has room for.
const LINE_ROOM: usize = 522;

/// The codes of the five security levels.
const LEVELS: [u8; 5] = [0x01, 0x03, 0x11, 0x13, 0x33];

/// The lines of the workload, one after another.
#[derive(Drop)]
pub struct Mill {
    rng: ChaCha20Rng,
    left: u32,
    round: Round,
    at: usize,
}

fn draw(rng: &mut ChaCha20Rng) -> u32
    ensures word { result ≡ word rng.old }
    ensures after { rng.new ≡ after rng.old }
{
    rng.next_word()
}

// The round that the next five words choose.
fn next_round(rng: &mut ChaCha20Rng) -> Round
    ensures round { result ≡ round_of rng.old }
    ensures after { rng.new ≡ after_round rng.old }
{
    let first = draw(rng);
    let second = draw(rng);
    let third = draw(rng);
    let fourth = draw(rng);
    let fifth = draw(rng);
    Round {
        level: LEVELS[(first % 5) as usize],
        challenge: u64::from(second) * 0x1_0000_0000 + u64::from(third),
        number: fourth,
        count: (1 + fifth % 200) as u8,
        byte: (fifth / 0x100_0000) as u8,
    }
}

impl Mill {
    /// The workload of a seed, of so many rounds.
    pub fn new(seed: u64, count: u32) -> Mill
        ensures { to_come result ≡ workload seed count }
    {
        let mut bytes = [0; 32];
        bytes[..8].copy_from_slice(&seed.to_be_bytes());
        Mill {
            rng: ChaCha20Rng::from_seed(bytes),
            left: count,
            round: Round {
                level: 0,
                challenge: 0,
                number: 0,
                count: 0,
                byte: 0,
            },
            at: 10,
        }
    }

    /// Makes `out` the next line, or answers false where all were given.
    pub fn next_line(&mut self, out: &mut ArrayVec<u8, LINE_ROOM>) -> bool
        ensures line { IsTrue result → to_come self.old ≡ out.new.items ∷ to_come self.new }
        ensures all { result ≡ false ↔ (to_come self.old ≡ []) }
    {
        let Some(line) = self.take_line() else {
            return false;
        };
        out.clear();
        out.try_extend_from_slice(&line).unwrap();
        true
    }

    // The next line, or nothing where all were given.
    fn take_line(&mut self) -> Option<MillLine>
        ensures { MatchOption result (to_come self.old ≡ []) (λ line. to_come self.old ≡ line.items ∷ to_come self.new) }
    {
        if let Some(line) = self.round.line(self.at) {
            self.at += 1;
            return Some(line);
        }
        if self.left == 0 {
            return None;
        }
        self.left -= 1;
        self.round = next_round(&mut self.rng);
        self.at = 1;
        self.round.line(0)
    }
}
