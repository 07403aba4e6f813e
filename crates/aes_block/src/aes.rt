ghost use Rattle.std.specs.Prelude.{◌+◌, ◌/◌};
ghost use Rattle.aes_block.specs.Inverse.{IsInverseSchedule};
ghost use Rattle.aes_block.specs.State.{HasSchedule, key_in, schedule_of};

use crate::block_key::BlockKey;
use crate::kept::{make_inverse, make_words, seal_by, unseal_by};
use crate::key_size::{Bits128, Bits192, Bits256, KeySize};
use crate::schedule::MOST_WORDS;
use std::marker::PhantomData;

/// A key for both directions, with both key schedules made.
#[derive(Drop)]
pub struct Aes<S: KeySize> {
    words: [u32; MOST_WORDS],
    inverse_words: [u32; MOST_WORDS],
    size: PhantomData<S>,
    ghost schedule: { HasSchedule S.BYTES words },
    ghost inverse: { IsInverseSchedule (schedule_of S.BYTES words) (schedule_of S.BYTES inverse_words) (S.BYTES / 4 + 6) },
}

/// A key of sixteen bytes.
pub type Aes128 = Aes<Bits128>;

/// A key of twenty-four bytes.
pub type Aes192 = Aes<Bits192>;

/// A key of thirty-two bytes.
pub type Aes256 = Aes<Bits256>;

impl<S: KeySize> BlockKey for Aes<S> {
    const LEN: usize = S::BYTES;

    ghost LEN = { S.BYTES };

    ghost key_bytes = { λ k. key_in S.BYTES k.words };

    #[inline(always)]
    fn from_key(key: &[u8]) -> Aes<S> {
        let mut words = [0; MOST_WORDS];
        make_words::<S>(key, &mut words);
        let mut inverse_words = [0; MOST_WORDS];
        make_inverse::<S>(&words, &mut inverse_words);
        Aes {
            words,
            inverse_words,
            size: PhantomData,
        }
    }

    fn seal(&self, block: &mut [u8; 16]) {
        seal_by::<S>(&self.words, block);
    }

    fn unseal(&self, block: &mut [u8; 16]) {
        unseal_by::<S>(&self.words, &self.inverse_words, block);
    }

    ghost standard_length = { S.standard };

    ghost whole_key = { λ k. k.schedule.whole };
}
