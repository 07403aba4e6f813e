//! The calls that are timed.

ghost use Rattle.std.specs.Prelude.{◌≡◌, ◌%◌, ◌≤◌};

use crate::session::session_code;
use aes_block::{Aes128, BlockKey, SealingAes128};
use cmac_kdf::{CmacKey, cbc_seal_blocks, cbc_unseal_blocks};

/// The most bytes of a message.
const MOST: usize = 16_384;

const KEY: [u8; 16] = [
    0x2b, 0x7e, 0x15, 0x16, 0x28, 0xae, 0xd2, 0xa6, 0xab, 0xf7, 0x15, 0x88, 0x09, 0xcf, 0x4f, 0x3c,
];

fn seal(count: u32) -> [u8; 16] {
    let key = Aes128::from_key(&KEY);
    let mut block = [0; 16];
    for _ in 0..count {
        key.seal(&mut block);
    }
    block
}

fn unseal(count: u32) -> [u8; 16] {
    let key = Aes128::from_key(&KEY);
    let mut block = [0; 16];
    for _ in 0..count {
        key.unseal(&mut block);
    }
    block
}

// A new key for each block.
fn new_key<K: BlockKey>(count: u32) -> [u8; 16]
    requires { K.LEN ≡ 16 }
{
    let mut block = [0; 16];
    for _ in 0..count {
        let key = K::from_key(&block);
        key.seal(&mut block);
    }
    block
}

fn codes(size: usize, count: u32) -> [u8; 16]
    requires some { 16 ≤ size }
    requires most { size ≤ 16384 }
{
    let key = CmacKey::new(Aes128::from_key(&KEY));
    let mut message = [0x5a; MOST];
    let mut code = [0; 16];
    for _ in 0..count {
        code = key.cmac(&message[..size]);
        message[..16].copy_from_slice(&code);
    }
    code
}

// A new key for each message.
fn new_codes(size: usize, count: u32) -> [u8; 16]
    requires { size ≤ 16384 }
{
    let message = [0x5a; MOST];
    let mut code = [0; 16];
    for _ in 0..count {
        code = CmacKey::new(SealingAes128::from_key(&code)).cmac(&message[..size]);
    }
    code
}

fn derivations(count: u32) -> [u8; 16] {
    let key = CmacKey::new(Aes128::from_key(&KEY));
    let mut context = [0; 16];
    for _ in 0..count {
        let mut out = [0; 16];
        key.derive(4, &context, &mut out);
        context = out;
    }
    context
}

// CBC over one message again and again. What comes of it gives the next chaining value: its last block where it is enciphered, else its
// first.
fn chained(size: usize, count: u32, enciphers: bool) -> [u8; 16]
    requires some { 16 ≤ size }
    requires most { size ≤ 16384 }
    requires whole { size % 16 ≡ 0 }
{
    let key = Aes128::from_key(&KEY);
    let mut message = [0x5a; MOST];
    let mut chain = [0; 16];
    for _ in 0..count {
        if enciphers {
            cbc_seal_blocks(&key, &chain, &mut message[..size]);
            chain.copy_from_slice(&message[size - 16..size]);
        } else {
            cbc_unseal_blocks(&key, &chain, &mut message[..size]);
            chain.copy_from_slice(&message[..16]);
        }
    }
    chain
}

fn sessions<K: BlockKey>(count: u32) -> [u8; 16]
    requires { K.LEN ≡ 16 }
{
    let mut challenges = [0; 16];
    for _ in 0..count {
        challenges = session_code::<K>(&KEY, &challenges);
    }
    challenges
}

/// The checksum of a call that was made `count` times on messages of `size` bytes, or nothing
/// where there is no such call. The size is a multiple of sixteen where CBC is called.
pub fn checksum(call: &str, size: usize, count: u32) -> Option<u128> {
    if size < 16 || size > MOST || size % 16 != 0 && call != "cmac" {
        return None;
    }
    let block = match call {
        "seal" => seal(count),
        "unseal" => unseal(count),
        "key" => new_key::<SealingAes128>(count),
        "both" => new_key::<Aes128>(count),
        "cmac" => codes(size, count),
        "new-cmac" => new_codes(size, count),
        "derive" => derivations(count),
        "cbc-seal" => chained(size, count, true),
        "cbc-unseal" => chained(size, count, false),
        "session" => sessions::<SealingAes128>(count),
        "both-session" => sessions::<Aes128>(count),
        _ => return None,
    };
    Some(u128::from_be_bytes(block))
}
