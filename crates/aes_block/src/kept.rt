// What the key types do with the key schedules that they keep.

ghost use Rattle.std.specs.Prelude.{◌≡◌, ◌+◌, ◌/◌, ℕ, List, length};
ghost use Rattle.aes_block.specs.Cipher.{IsBlock, cipher};
ghost use Rattle.aes_block.specs.Inverse.{IsInverseSchedule};
ghost use Rattle.aes_block.specs.State.{HasSchedule, key_in, schedule_of};

use crate::inverse_schedule::invert;
use crate::key_size::{KeySize, rounds};
use crate::rounds::{seal_rounds, unseal_rounds};
use crate::schedule::{MOST_WORDS, expand};

/// Makes the key schedule of a key.
#[inline(always)]
pub fn make_words<S: KeySize>(key: &[u8], words: &mut [u32; MOST_WORDS])
    requires { length key.now ≡ S.BYTES }
    ensures key { key_in S.BYTES words.new ≡ key.now }
    ensures schedule { HasSchedule S.BYTES words.new }
{
    expand(key, &mut words[..4 * rounds::<S>() + 4]);
}

/// Makes the inverse key schedule.
#[inline(always)]
pub fn make_inverse<S: KeySize>(words: &[u32; MOST_WORDS], inverse: &mut [u32; MOST_WORDS])
    ensures { IsInverseSchedule (schedule_of S.BYTES words.now) (schedule_of S.BYTES inverse.new) (S.BYTES / 4 + 6) }
{
    let rounds = rounds::<S>();
    invert(
        &words[..4 * rounds + 4],
        rounds,
        &mut inverse[..4 * rounds + 4],
    );
}

/// Enciphers the block by the key schedule.
#[inline(always)]
pub fn seal_by<S: KeySize>(words: &[u32; MOST_WORDS], block: &mut [u8; 16])
    requires { HasSchedule S.BYTES words.now }
    ensures { block.new ≡ cipher (key_in S.BYTES words.now) block.old }
{
    let rounds = rounds::<S>();
    seal_rounds(&words[..4 * rounds + 4], rounds, block);
}

/// Deciphers the block by the inverse key schedule.
#[inline(always)]
pub fn unseal_by<S: KeySize>(
    words: &[u32; MOST_WORDS],
    inverse: &[u32; MOST_WORDS],
    block: &mut [u8; 16],
)
    requires schedule { HasSchedule S.BYTES words.now }
    requires inverse { IsInverseSchedule (schedule_of S.BYTES words.now) (schedule_of S.BYTES inverse.now) (S.BYTES / 4 + 6) }
    ensures gives_back { cipher (key_in S.BYTES words.now) block.new ≡ block.old }
    ensures alone { (b : List ℕ) → IsBlock b → cipher (key_in S.BYTES words.now) b ≡ block.old → b ≡ block.new }
{
    let rounds = rounds::<S>();
    unseal_rounds(&inverse[..4 * rounds + 4], rounds, block);
}
