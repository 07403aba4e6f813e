// Padding method 2 of ISO/IEC 9797-1.

ghost use Rattle.std.specs.Prelude.{◌≡◌, ℕ, ◌%◌, ◌^◌, ◌<◌, ◌≤◌, List, length, take, drop, IfSome, IfNone};
ghost use Rattle.cmac_kdf.specs.Blocks.{padded, padded_length};

/// The length of so many bytes with their padding: the next multiple of sixteen above it.
#[inline]
pub fn padded_len(len: usize) -> usize
    requires { padded_length len < 2 ^ 64 }
    ensures { result ≡ padded_length len }
{
    16 * (len / 16 + 1)
}

/// Pads the first `len` bytes to whole blocks, and answers their new length.
#[inline]
pub fn pad(bytes: &mut [u8], len: usize) -> usize
    requires { padded_length len ≤ length bytes.old }
    ensures length { result ≡ padded_length len }
    ensures padded { take result bytes.new ≡ padded (take len bytes.old) }
    ensures after { drop result bytes.new ≡ drop result bytes.old }
{
    let end = padded_len(len);
    bytes[len] = 0x80;
    bytes[len + 1..end].fill(0);
    end
}

/// Less than a block, padded to one.
#[inline(always)]
pub fn padded_block(bytes: &[u8]) -> [u8; 16]
    requires { length bytes.now < 16 }
    ensures { result ≡ padded bytes.now }
{
    let mut block = [0; 16];
    block[..bytes.len()].copy_from_slice(bytes);
    block[bytes.len()] = 0x80;
    block
}

/// How many bytes, padded, give these whole blocks.
#[inline]
pub fn unpadded_len(bytes: &[u8]) -> Option<usize>
    requires some { 0 < length bytes.now }
    requires whole { length bytes.now % 16 ≡ 0 }
    ensures padded { IfSome result (λ n. padded (take n bytes.now) ≡ bytes.now) }
    ensures within { IfSome result (λ n. n < length bytes.now) }
    ensures refused { IfNone result ((p : List ℕ) → padded p ≡ bytes.now → ⊥) }
{
    for zeros in 0..16 {
        let at = bytes.len() - 1 - zeros;
        let byte = bytes[at];
        if byte == 0x80 {
            return Some(at);
        }
        if byte != 0 {
            return None;
        }
    }
    None
}
