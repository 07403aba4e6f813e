//! Bytes of any length in a slot: one byte says how many there are, and they stand after it.

ghost use Rattle.std.specs.Prelude.{◌≡◌, ◌+◌, ◌<◌, ◌≤◌, ◌^◌, ℕ, List, length, slice_index, IfOk, OnErr};
ghost use Rattle.rec_store.specs.Prelude.{HasBytesAt, IsAid, big_from};

use crate::slot::BadSlot;
use byteorder::{BigEndian, ByteOrder};
use card_types::Aid;

/// The bytes that stand from this place of a slot on.
pub fn bytes_at(slot: &[u8], at: usize) -> Result<&[u8], BadSlot>
    requires { at < length slot.now }
    ensures ok { IfOk result (λ bytes. HasBytesAt slot.now at bytes.now) }
    ensures err { OnErr result ((bytes : List ℕ) → HasBytesAt slot.now at bytes → ⊥) }
{
    let count = usize::from(slot[at]);
    match slot[at + 1..].get(..count) {
        Some(bytes) => Ok(bytes),
        None => Err(BadSlot),
    }
}

/// The AID that stands from this place of a slot on.
pub fn aid_at(slot: &[u8], at: usize) -> Result<Aid, BadSlot>
    requires { at < length slot.now }
    ensures ok { IfOk result (λ aid. HasBytesAt slot.now at aid) }
    ensures form { IfOk result IsAid }
    ensures err { OnErr result ((aid : List ℕ) → IsAid aid → HasBytesAt slot.now at aid → ⊥) }
{
    match Aid::new(bytes_at(slot, at)?) {
        Some(aid) => Ok(aid),
        None => Err(BadSlot),
    }
}

/// Makes these bytes stand from this place of a slot on.
pub fn put_bytes(slot: &mut [u8], at: usize, bytes: &[u8])
    requires few { length bytes.now < 256 }
    requires room { at + 1 + length bytes.now ≤ length slot.old }
    ensures put { HasBytesAt slot.new at bytes.now }
    ensures below { (i : ℕ) → i < at → slice_index slot.new i ≡ slice_index slot.old i }
{
    slot[at] = bytes.len() as u8;
    slot[at + 1..at + 1 + bytes.len()].copy_from_slice(bytes);
}

/// The number of three bytes at this place.
pub fn u24_at(slot: &[u8], at: usize) -> u32
    requires { at + 3 ≤ length slot.now }
    ensures number { result ≡ big_from at 3 slot.now }
    ensures fits { result < 2 ^ 24 }
{
    BigEndian::read_u24(&slot[at..])
}

/// Makes a number of two bytes stand at this place.
pub fn put_u16(slot: &mut [u8], at: usize, number: u16)
    requires { at + 2 ≤ length slot.old }
    ensures put { big_from at 2 slot.new ≡ number }
    ensures below { (i : ℕ) → i < at → slice_index slot.new i ≡ slice_index slot.old i }
{
    BigEndian::write_u16(&mut slot[at..], number);
}

/// Makes a number of three bytes stand at this place.
pub fn put_u24(slot: &mut [u8], at: usize, number: u32)
    requires room { at + 3 ≤ length slot.old }
    requires fits { number < 2 ^ 24 }
    ensures put { big_from at 3 slot.new ≡ number }
    ensures below { (i : ℕ) → i < at → slice_index slot.new i ≡ slice_index slot.old i }
{
    BigEndian::write_u24(&mut slot[at..], number);
}
