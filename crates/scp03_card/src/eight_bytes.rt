// Challenges, cryptograms and MACs: values of eight bytes.

ghost use Rattle.std.specs.Prelude.{◌≡◌, ◌↔◌, ◌≤◌, ◌++◌, length, IsTrue};
ghost use Rattle.cmac_kdf.specs.Derivation.{kdf};

use aes_block::BlockKey;
use cmac_kdf::CmacKey;

/// Eight bytes derived from the key (GlobalPlatform Amendment D, 6.2.2).
pub fn derived_eight<K: BlockKey>(key: &CmacKey<K>, constant: u8, context: &[u8]) -> [u8; 8]
    requires { length context.now ≤ 32 }
    ensures { result ≡ kdf key.now constant 64 context.now }
{
    let mut bytes = [0; 8];
    key.derive(constant, context, &mut bytes);
    bytes
}

/// The two challenges, which are the context of derivations.
pub fn joined(host: &[u8; 8], card: &[u8; 8]) -> [u8; 16]
    ensures { result ≡ host.now ++ card.now }
{
    let mut context = [0; 16];
    context[..8].copy_from_slice(host);
    context[8..].copy_from_slice(card);
    context
}

pub fn same(some: &[u8], others: &[u8]) -> bool
    ensures { IsTrue result ↔ (some.now ≡ others.now) }
{
    some == others
}
