// The key schedule of the equivalent inverse cipher.

ghost use Rattle.std.specs.Prelude.{◌≡◌, ◌+◌, ◌*◌, ◌<◌, length, map};
ghost use Rattle.aes_block.specs.Field.{xtime};
ghost use Rattle.aes_block.specs.Inverse.{IsInverseSchedule, inv_mix_word};
ghost use Rattle.aes_block.specs.Words.{word_bytes};

/// Each byte of the word times x (FIPS 197, 4.2).
#[inline(always)]
fn doubled(word: u32) -> u32
    ensures { word_bytes result ≡ map xtime (word_bytes word) }
{
    let top_bits = word >> 7 & 0x0101_0101;
    (word & 0x7f7f_7f7f) << 1 ^ top_bits * 0x1b
}

/// InvMixColumns of a word (FIPS 197, 5.3.3). It has no table, so that the compiler can do a few
/// words at once.
#[inline(always)]
fn unmixed(word: u32) -> u32
    ensures { word_bytes result ≡ inv_mix_word word }
{
    let two = doubled(word);
    let four = doubled(two);
    let eight = doubled(four);
    let nine = eight ^ word;
    let upper = eight ^ four ^ two ^ (nine ^ two).rotate_right(24);
    let lower = (nine ^ four).rotate_right(16) ^ nine.rotate_right(8);
    upper ^ lower
}

/// KEYEXPANSIONEIC (FIPS 197, 5.3.5): the inverse key schedule of the words.
#[inline(always)]
pub fn invert(words: &[u32], rounds: usize, inverse: &mut [u32])
    requires some { 0 < rounds }
    requires whole { length words.now ≡ 4 * rounds + 4 }
    requires same { length inverse.old ≡ length words.now }
    ensures { IsInverseSchedule words.now inverse.new rounds }
{
    inverse.copy_from_slice(words);
    'word: for i in 4..4 * rounds {
        inverse[i] = unmixed(words[i]);
    }
}
