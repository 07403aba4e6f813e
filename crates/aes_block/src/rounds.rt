// The rounds of the cipher and of its inverse, over a key schedule of any length.

ghost use Rattle.std.specs.Prelude.{◌≡◌, ◌+◌, ◌*◌, ◌<◌, length};
ghost use Rattle.aes_block.specs.Cipher.{cipher_rounds};
ghost use Rattle.aes_block.specs.Inverse.{inv_cipher_rounds};

use crate::columns::Columns;

/// CIPHER (FIPS 197, 5.1), with the words of the key schedule.
#[inline(always)]
pub fn seal_rounds(words: &[u32], rounds: usize, block: &mut [u8; 16])
    requires some { 1 < rounds }
    requires whole { length words.now ≡ 4 * rounds + 4 }
    ensures { block.new ≡ cipher_rounds words.now rounds block.old }
{
    let start = Columns::load(block).plus(Columns::round_key(words, 0));
    // One round stands before the loop: else the compiler keeps the state of the loop in a vector
    // register, and takes it apart in every round.
    let mut state = start.sealed(Columns::round_key(words, 4));
    for round in 1..rounds - 1 {
        state = state.sealed(Columns::round_key(words, 4 * round + 4));
    }
    *block = state
        .sealed_last(Columns::round_key(words, 4 * rounds))
        .store();
}

/// EQINVCIPHER (FIPS 197, 5.3.5), with the words of the inverse key schedule.
#[inline(always)]
pub fn unseal_rounds(words: &[u32], rounds: usize, block: &mut [u8; 16])
    requires some { 1 < rounds }
    requires whole { length words.now ≡ 4 * rounds + 4 }
    ensures { block.new ≡ inv_cipher_rounds words.now rounds block.old }
{
    let start = Columns::load(block).plus(Columns::round_key(words, 4 * rounds));
    // As in `seal_rounds`.
    let mut state = start.unsealed(Columns::round_key(words, 4 * (rounds - 1)));
    for round in 1..rounds - 1 {
        state = state.unsealed(Columns::round_key(words, 4 * (rounds - 1 - round)));
    }
    *block = state.unsealed_last(Columns::round_key(words, 0)).store();
}
