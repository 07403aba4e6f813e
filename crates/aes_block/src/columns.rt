// The state as four words, and the steps of a round on them.

ghost use Rattle.std.specs.Prelude.{◌≡◌, ◌+◌, ◌≤◌, length};
ghost use Rattle.aes_block.specs.Cipher.{four_words, mix_columns, shift_rows, sub_bytes, xor_bytes};
ghost use Rattle.aes_block.specs.Inverse.{inv_mix_columns, inv_shift_rows, inv_sub_bytes};
ghost use Rattle.aes_block.specs.State.{state_bytes};

use crate::column::{
    last_sealed_column, last_unsealed_column, sealing_shares, summed, unsealing_shares,
};

/// The four columns of the state, each as the word whose highest byte is the first row's.
#[derive(Clone, Copy)]
pub struct Columns {
    pub a: u32,
    pub b: u32,
    pub c: u32,
    pub d: u32,
}

impl Columns {
    /// The columns of a block (FIPS 197, 3.4).
    #[inline(always)]
    pub fn load(block: &[u8; 16]) -> Columns
        ensures { state_bytes result ≡ block.now }
    {
        Columns {
            a: u32::from_be_bytes([block[0], block[1], block[2], block[3]]),
            b: u32::from_be_bytes([block[4], block[5], block[6], block[7]]),
            c: u32::from_be_bytes([block[8], block[9], block[10], block[11]]),
            d: u32::from_be_bytes([block[12], block[13], block[14], block[15]]),
        }
    }

    /// The block of the columns.
    #[inline(always)]
    pub fn store(self) -> [u8; 16]
        ensures { result ≡ state_bytes self }
    {
        let [a0, a1, a2, a3] = self.a.to_be_bytes();
        let [b0, b1, b2, b3] = self.b.to_be_bytes();
        let [c0, c1, c2, c3] = self.c.to_be_bytes();
        let [d0, d1, d2, d3] = self.d.to_be_bytes();
        [
            a0, a1, a2, a3, b0, b1, b2, b3, c0, c1, c2, c3, d0, d1, d2, d3,
        ]
    }

    /// The four words of a key schedule from word `i` on.
    #[inline(always)]
    pub fn round_key(words: &[u32], i: usize) -> Columns
        requires { i + 4 ≤ length words.now }
        ensures { state_bytes result ≡ four_words words.now i }
    {
        Columns {
            a: words[i],
            b: words[i + 1],
            c: words[i + 2],
            d: words[i + 3],
        }
    }

    /// AddRoundKey (FIPS 197, 5.1.4).
    #[inline(always)]
    pub fn plus(self, key: Columns) -> Columns
        ensures { state_bytes result ≡ xor_bytes (state_bytes self) (state_bytes key) }
    {
        Columns {
            a: self.a ^ key.a,
            b: self.b ^ key.b,
            c: self.c ^ key.c,
            d: self.d ^ key.d,
        }
    }

    /// A round of the cipher (FIPS 197, 5.1).
    #[inline(always)]
    pub fn sealed(self, key: Columns) -> Columns
        ensures { state_bytes result ≡ xor_bytes (mix_columns (shift_rows (sub_bytes (state_bytes self)))) (state_bytes key) }
    {
        // All look-ups of one column before those of the next: so the fewest words are held at once.
        let a = sealing_shares(self.a);
        let b = sealing_shares(self.b);
        let c = sealing_shares(self.c);
        let d = sealing_shares(self.d);
        Columns {
            a: summed(key.a, a.first, b.second, c.third, d.fourth),
            b: summed(key.b, b.first, c.second, d.third, a.fourth),
            c: summed(key.c, c.first, d.second, a.third, b.fourth),
            d: summed(key.d, d.first, a.second, b.third, c.fourth),
        }
    }

    /// The last round of the cipher (FIPS 197, 5.1).
    #[inline(always)]
    pub fn sealed_last(self, key: Columns) -> Columns
        ensures { state_bytes result ≡ xor_bytes (shift_rows (sub_bytes (state_bytes self))) (state_bytes key) }
    {
        Columns {
            a: last_sealed_column(self.a, self.b, self.c, self.d, key.a),
            b: last_sealed_column(self.b, self.c, self.d, self.a, key.b),
            c: last_sealed_column(self.c, self.d, self.a, self.b, key.c),
            d: last_sealed_column(self.d, self.a, self.b, self.c, key.d),
        }
    }

    /// A round of the equivalent inverse cipher (FIPS 197, 5.3.5).
    #[inline(always)]
    pub fn unsealed(self, key: Columns) -> Columns
        ensures { state_bytes result ≡ xor_bytes (inv_mix_columns (inv_sub_bytes (inv_shift_rows (state_bytes self)))) (state_bytes key) }
    {
        // As in `sealed`.
        let a = unsealing_shares(self.a);
        let b = unsealing_shares(self.b);
        let c = unsealing_shares(self.c);
        let d = unsealing_shares(self.d);
        Columns {
            a: summed(key.a, a.first, d.second, c.third, b.fourth),
            b: summed(key.b, b.first, a.second, d.third, c.fourth),
            c: summed(key.c, c.first, b.second, a.third, d.fourth),
            d: summed(key.d, d.first, c.second, b.third, a.fourth),
        }
    }

    /// The last round of the equivalent inverse cipher (FIPS 197, 5.3.5).
    #[inline(always)]
    pub fn unsealed_last(self, key: Columns) -> Columns
        ensures { state_bytes result ≡ xor_bytes (inv_sub_bytes (inv_shift_rows (state_bytes self))) (state_bytes key) }
    {
        Columns {
            a: last_unsealed_column(self.a, self.d, self.c, self.b, key.a),
            b: last_unsealed_column(self.b, self.a, self.d, self.c, key.b),
            c: last_unsealed_column(self.c, self.b, self.a, self.d, key.c),
            d: last_unsealed_column(self.d, self.c, self.b, self.a, key.d),
        }
    }
}
