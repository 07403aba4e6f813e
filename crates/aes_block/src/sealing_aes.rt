ghost use Rattle.aes_block.specs.State.{HasSchedule, key_in};

use crate::block_key::BlockKey;
use crate::kept::{make_inverse, make_words, seal_by, unseal_by};
use crate::key_size::{Bits128, Bits192, Bits256, KeySize};
use crate::schedule::MOST_WORDS;
use std::marker::PhantomData;

/// A key for blocks that are sealed. It has no inverse key schedule, so that `unseal` makes it at
/// each call.
#[derive(Drop)]
pub struct SealingAes<S: KeySize> {
    words: [u32; MOST_WORDS],
    size: PhantomData<S>,
    ghost schedule: { HasSchedule S.BYTES words },
}

/// A key of sixteen bytes.
pub type SealingAes128 = SealingAes<Bits128>;

/// A key of twenty-four bytes.
pub type SealingAes192 = SealingAes<Bits192>;

/// A key of thirty-two bytes.
pub type SealingAes256 = SealingAes<Bits256>;

impl<S: KeySize> BlockKey for SealingAes<S> {
    const LEN: usize = S::BYTES;

    ghost LEN = { S.BYTES };

    ghost key_bytes = { λ k. key_in S.BYTES k.words };

    #[inline(always)]
    fn from_key(key: &[u8]) -> SealingAes<S> {
        let mut words = [0; MOST_WORDS];
        make_words::<S>(key, &mut words);
        SealingAes {
            words,
            size: PhantomData,
        }
    }

    fn seal(&self, block: &mut [u8; 16]) {
        seal_by::<S>(&self.words, block);
    }

    fn unseal(&self, block: &mut [u8; 16]) {
        let mut inverse_words = [0; MOST_WORDS];
        make_inverse::<S>(&self.words, &mut inverse_words);
        unseal_by::<S>(&self.words, &inverse_words, block);
    }

    ghost standard_length = { S.standard };

    ghost whole_key = { λ k. k.schedule.whole };
}
