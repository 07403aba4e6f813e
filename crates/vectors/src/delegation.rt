//! Tokens and receipts of delegated management, under keys of three lengths. The wanted bytes were computed by another
//! implementation of CMAC.

use crate::digits::{bytes, key};
use aes_block::{Aes256, BlockKey, SealingAes128, SealingAes192};
use arrayvec::ArrayVec;
use card_types::Aid;
use std::test::Fail;
use tokens_receipts::{receipt, token, token_fits};

/// The bytes 00 to 1F.
const KEY: &[u8] = b"000102030405060708090a0b0c0d0e0f101112131415161718191a1b1c1d1e1f";

/// The bytes 40 to 4F.
const KEY_128: &[u8] = b"404142434445464748494a4b4c4d4e4f";

/// The data field of an INSTALL before its token.
const BEFORE: &[u8] = b"05d2000000aa05d2000000ab05d2000000ab010002c900";

/// The tokens of an INSTALL, and of a command whose data field has nothing before its token, and whether the first fits.
fn tokens<K: BlockKey>(digits: &[u8]) -> Option<([u8; 16], [u8; 16], bool)> {
    let key: K = key(digits)?;
    let before: ArrayVec<u8, 32> = bytes(BEFORE);
    let install = token(&key, 0x0C, 0x00, &before);
    let mut turned = install;
    turned[15] ^= 1;
    let fits = token_fits(&key, 0x0C, 0x00, &before, &install)
        && !token_fits(&key, 0x0C, 0x00, &before, &turned)
        && !token_fits(&key, 0x0C, 0x00, &before, &install[..8])
        && !token_fits(&key, 0x04, 0x00, &before, &install);
    Some((install, token(&key, 0x02, 0x00, &[]), fits))
}

#[test]
fn tokens_sign_a_command(rt: HostRuntime) -> Result<(), Fail> {
    let wanted: [(&[u8], &[u8]); 3] = [
        (
            b"8053efed545ce6dd4546863f4f99fef6",
            b"d1ccce52509c0dbe2432308b1da7ce84",
        ),
        (
            b"430c2cdd6ffa50fb7ad4d2dc3b7bc3c2",
            b"ce3859ff8d17599d8b234ad95f9f0b92",
        ),
        (
            b"db6c13ed011035a01d1b258a351e214f",
            b"ab81821511dd23350cee45eb171f9471",
        ),
    ];
    let made = [
        tokens::<SealingAes128>(KEY_128),
        tokens::<SealingAes192>(&KEY[..48]),
        tokens::<Aes256>(KEY),
    ];
    for at in 0..3 {
        let (install, empty) = wanted[at];
        let (token, of_nothing, fits) = made[at].ok_or("a key of this length")?;
        let install: ArrayVec<u8, 16> = bytes(install);
        let empty: ArrayVec<u8, 16> = bytes(empty);
        assert!(rt;
            fits && token[..] == install[..] && of_nothing[..] == empty[..],
            "{at}"
        );
    }
    Ok(())
}

/// The receipts of a command about two things, about three on a card with 20 bytes of unique data, and about one.
fn receipts<K: BlockKey>(digits: &[u8]) -> Option<[ArrayVec<u8, 48>; 3]> {
    let key: K = key(digits)?;
    let file = Aid::new(b"\xd2\0\0\0\xaa")?;
    let domain = Aid::new(b"\xd1\0\0\0\x01")?;
    let long = Aid::new(b"\xa0\0\0\x01\x51\0\0\0\x01\x02\x03\x04\x05\x06\x07\x08")?;
    let unique: ArrayVec<u8, 20> = bytes(b"0102030405060708090a0b0c0d0e0f1011121314");
    let mut two = ArrayVec::new();
    let mut three = ArrayVec::new();
    let mut one = ArrayVec::new();
    one.push(0xFF);
    receipt(&key, 1, &[], &file, Some(&domain), None, &mut two);
    receipt(
        &key,
        0xFFFF,
        &unique,
        &file,
        Some(&domain),
        Some(&long),
        &mut three,
    );
    receipt(&key, 0x0100, &[0xAA], &long, None, None, &mut one);
    Some([two, three, one])
}

#[test]
fn receipts_confirm_a_command(rt: HostRuntime) -> Result<(), Fail> {
    let wanted: [[&[u8]; 3]; 3] = [
        [
            b"15107e57d51a568ce1b16fccc9d7359a545c02000100",
            b"2910fbe6bf336cfb0dc5c8ef370fa777ddf802ffff140102030405060708090a0b0c0d0e0f1011121314",
            b"161095b872c5bfb37c71c4b6ce25eb0d0f2402010001aa",
        ],
        [
            b"15107d72fc170a6810a70c628d5299d5b0ba02000100",
            b"291038b5eacbff6947feefac6c17dc243ba302ffff140102030405060708090a0b0c0d0e0f1011121314",
            b"1610628e08aae721ce83affad9c7a33f9fa802010001aa",
        ],
        [
            b"15102e3294847541a5f6d7f437c5cce169e302000100",
            b"2910693d4de7cd58abe8094abf1167521f6102ffff140102030405060708090a0b0c0d0e0f1011121314",
            b"1610aa675f6e361299bc2032bf663583d9db02010001aa",
        ],
    ];
    let made = [
        receipts::<SealingAes128>(KEY_128),
        receipts::<SealingAes192>(&KEY[..48]),
        receipts::<Aes256>(KEY),
    ];
    for (at, receipts) in made.iter().enumerate() {
        let receipts = receipts.as_ref().ok_or("a key of this length")?;
        for number in 0..3 {
            let bytes: ArrayVec<u8, 48> = bytes(wanted[at][number]);
            assert!(rt; receipts[number] == bytes, "{at} {number}");
        }
    }
    Ok(())
}
