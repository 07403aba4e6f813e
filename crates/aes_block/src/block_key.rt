ghost use Rattle.std.specs.Prelude.{◌≡◌, ℕ, List, length};
ghost use Rattle.aes_block.specs.Cipher.{IsAesKeyLength, IsBlock, IsKey, cipher};

/// A key of the cipher, with its key schedule made.
///
/// `seal` and `unseal` undo each other: `unseal` leaves the one block that `seal` turns into the
/// block that was there.
pub trait BlockKey: Drop {
    /// The length of the key in bytes: 16, 24 or 32 (FIPS 197, section 5, table 3).
    const LEN: usize;

    ghost LEN: { ℕ };

    // The key's bytes.
    ghost key_bytes: { Self → List ℕ };

    /// Makes the key schedule (FIPS 197, 5.2). The key has `LEN` bytes.
    fn from_key(key: &[u8]) -> Self
        requires { length key.now ≡ LEN }
        ensures { key_bytes result ≡ key.now };

    /// Enciphers the block in place (FIPS 197, 5.1).
    fn seal(&self, block: &mut [u8; 16])
        ensures sealed { block.new ≡ cipher (key_bytes self.now) block.old };

    /// Deciphers the block in place: what is left is the block that `seal` turns into the old one.
    fn unseal(&self, block: &mut [u8; 16])
        ensures gives_back { cipher (key_bytes self.now) block.new ≡ block.old }
        ensures alone { (b : List ℕ) → IsBlock b → cipher (key_bytes self.now) b ≡ block.old → b ≡ block.new };

    // A key has one of the standard's lengths.
    ghost standard_length: { IsAesKeyLength LEN };

    // The key's bytes are bytes, LEN in number.
    ghost whole_key: { (k : Self) → IsKey LEN (key_bytes k) };
}
