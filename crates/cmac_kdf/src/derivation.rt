// Key derivation in counter mode with CMAC (NIST SP 800-108, 5.1; GlobalPlatform Amendment D, 4.1.5).

ghost use Rattle.std.specs.Prelude.{◌≡◌, ◌*◌, ◌<◌, ◌≤◌, length};
ghost use Rattle.cmac_kdf.specs.Cmac.{cmac, first_subkey, second_subkey};
ghost use Rattle.cmac_kdf.specs.Derivation.{derivation_data, kdf};

use crate::subkeys::Subkeys;
use crate::whole::code_of;
use aes_block::BlockKey;

const HEADER: usize = 16;

const MOST_CONTEXT: usize = 32;

// K(i), for an output of so many bits.
fn derived_block<K: BlockKey>(
    key: &K,
    subkeys: &Subkeys,
    constant: u8,
    bits: u16,
    context: &[u8],
    i: u8,
) -> [u8; 16]
    requires first { subkeys.now.first ≡ first_subkey (K.key_bytes key.now) }
    requires second { subkeys.now.second ≡ second_subkey (K.key_bytes key.now) }
    requires short_context { length context.now ≤ 32 }
    ensures { result ≡ cmac (K.key_bytes key.now) (derivation_data constant bits context.now i) }
{
    let [high, low] = bits.to_be_bytes();
    let header = [0, 0, 0, 0, 0, 0, 0, 0, 0, 0, 0, constant, 0, high, low, i];
    let mut input = [0; HEADER + MOST_CONTEXT];
    input[..HEADER].copy_from_slice(&header);
    input[HEADER..HEADER + context.len()].copy_from_slice(context);
    code_of(key, subkeys, &input[..HEADER + context.len()])
}

/// Does what `derive` does, with the subkeys of the key.
pub fn derive_under<K: BlockKey>(
    key: &K,
    subkeys: &Subkeys,
    constant: u8,
    context: &[u8],
    out: &mut [u8],
)
    requires first { subkeys.now.first ≡ first_subkey (K.key_bytes key.now) }
    requires second { subkeys.now.second ≡ second_subkey (K.key_bytes key.now) }
    requires some { 0 < length out.old }
    requires most { length out.old ≤ 32 }
    requires short_context { length context.now ≤ 32 }
    ensures { out.new ≡ kdf (K.key_bytes key.now) constant (8 * length out.old) context.now }
{
    let len = out.len();
    let bits = 8 * len as u16;
    let first = derived_block(key, subkeys, constant, bits, context, 1);
    if len <= 16 {
        out.copy_from_slice(&first[..len]);
        return;
    }
    let second = derived_block(key, subkeys, constant, bits, context, 2);
    out[..16].copy_from_slice(&first);
    out[16..].copy_from_slice(&second[..len - 16]);
}

/// Fills `out`, of 1 to 32 bytes, with the bytes derived from the key for the derivation constant and
/// the context, which has at most 32 bytes (GlobalPlatform Amendment D, 4.1.5).
pub fn derive<K: BlockKey>(key: &K, constant: u8, context: &[u8], out: &mut [u8])
    requires some { 0 < length out.old }
    requires most { length out.old ≤ 32 }
    requires short_context { length context.now ≤ 32 }
    ensures { out.new ≡ kdf (K.key_bytes key.now) constant (8 * length out.old) context.now }
{
    derive_under(key, &Subkeys::of(key), constant, context, out);
}
