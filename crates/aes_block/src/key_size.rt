// The lengths of keys.

ghost use Rattle.std.proofs.Common.{inl, inr, refl};
ghost use Rattle.std.specs.Prelude.{◌≡◌, ℕ, ◌+◌, ◌*◌, ◌/◌, ◌<◌, ◌≤◌};
ghost use Rattle.aes_block.specs.Cipher.{IsAesKeyLength};

/// A length of keys (FIPS 197, section 5, table 3).
pub trait KeySize {
    /// The length in bytes.
    const BYTES: usize;

    ghost BYTES: { ℕ };

    // It is one of the standard's.
    ghost standard: { IsAesKeyLength BYTES };
}

/// Keys of sixteen bytes.
#[derive(Clone, Copy)]
pub struct Bits128;

/// Keys of twenty-four bytes.
#[derive(Clone, Copy)]
pub struct Bits192;

/// Keys of thirty-two bytes.
#[derive(Clone, Copy)]
pub struct Bits256;

impl KeySize for Bits128 {
    const BYTES: usize = 16;

    ghost BYTES = { 16 };

    ghost standard = { inl refl };
}

impl KeySize for Bits192 {
    const BYTES: usize = 24;

    ghost BYTES = { 24 };

    ghost standard = { inr (inl refl) };
}

impl KeySize for Bits256 {
    const BYTES: usize = 32;

    ghost BYTES = { 32 };

    ghost standard = { inr (inr refl) };
}

/// The number of rounds: 10, 12 or 14 (FIPS 197, section 5, table 3).
#[inline(always)]
pub fn rounds<S: KeySize>() -> usize
    ensures value { result ≡ S.BYTES / 4 + 6 }
    ensures words { 4 * result + 4 ≡ S.BYTES + 28 }
    ensures some { 1 < result }
    ensures most { result ≤ 14 }
{
    S::BYTES / 4 + 6
}
