//! Example vectors of FIPS 197, appendices B and C.
ghost use Rattle.std.specs.Prelude.{◌≡◌, length};

use aes_block::{Aes128, Aes192, Aes256, BlockKey, SealingAes128, SealingAes192, SealingAes256};

// Appendix B.
const KEY_B: [u8; 16] = [
    0x2b, 0x7e, 0x15, 0x16, 0x28, 0xae, 0xd2, 0xa6, 0xab, 0xf7, 0x15, 0x88, 0x09, 0xcf, 0x4f, 0x3c,
];

const PLAIN_B: [u8; 16] = [
    0x32, 0x43, 0xf6, 0xa8, 0x88, 0x5a, 0x30, 0x8d, 0x31, 0x31, 0x98, 0xa2, 0xe0, 0x37, 0x07, 0x34,
];

const SEALED_B: [u8; 16] = [
    0x39, 0x25, 0x84, 0x1d, 0x02, 0xdc, 0x09, 0xfb, 0xdc, 0x11, 0x85, 0x97, 0x19, 0x6a, 0x0b, 0x32,
];

// Appendices C.1, C.2 and C.3: the front of this key, one block, and what the three ciphers make of it.
const KEY_C: [u8; 32] = [
    0x00, 0x01, 0x02, 0x03, 0x04, 0x05, 0x06, 0x07, 0x08, 0x09, 0x0a, 0x0b, 0x0c, 0x0d, 0x0e, 0x0f,
    0x10, 0x11, 0x12, 0x13, 0x14, 0x15, 0x16, 0x17, 0x18, 0x19, 0x1a, 0x1b, 0x1c, 0x1d, 0x1e, 0x1f,
];

const PLAIN_C: [u8; 16] = [
    0x00, 0x11, 0x22, 0x33, 0x44, 0x55, 0x66, 0x77, 0x88, 0x99, 0xaa, 0xbb, 0xcc, 0xdd, 0xee, 0xff,
];

const SEALED_C1: [u8; 16] = [
    0x69, 0xc4, 0xe0, 0xd8, 0x6a, 0x7b, 0x04, 0x30, 0xd8, 0xcd, 0xb7, 0x80, 0x70, 0xb4, 0xc5, 0x5a,
];

const SEALED_C2: [u8; 16] = [
    0xdd, 0xa9, 0x7c, 0xa4, 0x86, 0x4c, 0xdf, 0xe0, 0x6e, 0xaf, 0x70, 0xa0, 0xec, 0x0d, 0x71, 0x91,
];

const SEALED_C3: [u8; 16] = [
    0x8e, 0xa2, 0xb7, 0xca, 0x51, 0x67, 0x45, 0xbf, 0xea, 0xfc, 0x49, 0x90, 0x4b, 0x49, 0x60, 0x89,
];

// The block sealed, and the block unsealed.
fn both_ways<K: BlockKey>(key: &[u8], plain: &[u8; 16], sealed: &[u8; 16]) -> ([u8; 16], [u8; 16])
    requires { length key.now ≡ K.LEN }
{
    let key = K::from_key(key);
    let mut forth = *plain;
    key.seal(&mut forth);
    let mut back = *sealed;
    key.unseal(&mut back);
    (forth, back)
}

// Code that knows a key by its trait alone finds that the two calls undo each other.
fn there_and_back<K: BlockKey>(key: &K, block: &mut [u8; 16])
    ensures { block.new ≡ block.old }
{
    key.seal(block);
    key.unseal(block);
}

fn back_and_there<K: BlockKey>(key: &K, block: &mut [u8; 16])
    ensures { block.new ≡ block.old }
{
    key.unseal(block);
    key.seal(block);
}

#[test]
fn published_vectors(rt: HostRuntime) {
    let found = [
        both_ways::<Aes128>(&KEY_B, &PLAIN_B, &SEALED_B),
        both_ways::<Aes128>(&KEY_C[..16], &PLAIN_C, &SEALED_C1),
        both_ways::<Aes192>(&KEY_C[..24], &PLAIN_C, &SEALED_C2),
        both_ways::<Aes256>(&KEY_C, &PLAIN_C, &SEALED_C3),
        both_ways::<SealingAes128>(&KEY_C[..16], &PLAIN_C, &SEALED_C1),
        both_ways::<SealingAes192>(&KEY_C[..24], &PLAIN_C, &SEALED_C2),
        both_ways::<SealingAes256>(&KEY_C, &PLAIN_C, &SEALED_C3),
    ];
    let wanted = [
        (SEALED_B, PLAIN_B),
        (SEALED_C1, PLAIN_C),
        (SEALED_C2, PLAIN_C),
        (SEALED_C3, PLAIN_C),
        (SEALED_C1, PLAIN_C),
        (SEALED_C2, PLAIN_C),
        (SEALED_C3, PLAIN_C),
    ];
    assert!(rt; found == wanted);
}

#[test]
fn the_calls_undo_each_other(rt: HostRuntime) {
    let key = Aes192::from_key(&KEY_C[..24]);
    let mut block = PLAIN_C;
    there_and_back(&key, &mut block);
    back_and_there(&key, &mut block);
    assert!(rt; block == PLAIN_C);
}
