//! Instruction bytes (ISO/IEC 7816-4:2013, 5.5; GlobalPlatform Card Specification 2.3.1, 11.1.5; Amendment D, 7.1).
ghost use Rattle.std.specs.Prelude.{◌≡◌};
ghost use Rattle.policy_machine.specs.declared.instruction.TheConstants.{SELECT, MANAGE_CHANNEL, GET_DATA, INITIALIZE_UPDATE, EXTERNAL_AUTHENTICATE, PUT_KEY, STORE_DATA, DELETE, INSTALL, LOAD, SET_STATUS, GET_STATUS};

pub const SELECT: u8 = 0xA4;

pub const MANAGE_CHANNEL: u8 = 0x70;

pub const GET_DATA: u8 = 0xCA;

pub const INITIALIZE_UPDATE: u8 = 0x50;

pub const EXTERNAL_AUTHENTICATE: u8 = 0x82;

pub const LOAD: u8 = 0xE8;

pub const PUT_KEY: u8 = 0xD8;

pub const STORE_DATA: u8 = 0xE2;

pub const DELETE: u8 = 0xE4;

pub const INSTALL: u8 = 0xE6;

pub const SET_STATUS: u8 = 0xF0;

pub const GET_STATUS: u8 = 0xF2;

/// Each instruction byte against its literal.
pub fn instruction_bytes()
    ensures select { SELECT ≡ 0xA4 }
    ensures manage_channel { MANAGE_CHANNEL ≡ 0x70 }
    ensures get_data { GET_DATA ≡ 0xCA }
    ensures initialize_update { INITIALIZE_UPDATE ≡ 0x50 }
    ensures external_authenticate { EXTERNAL_AUTHENTICATE ≡ 0x82 }
    ensures put_key { PUT_KEY ≡ 0xD8 }
    ensures store_data { STORE_DATA ≡ 0xE2 }
    ensures delete { DELETE ≡ 0xE4 }
    ensures install { INSTALL ≡ 0xE6 }
    ensures load { LOAD ≡ 0xE8 }
    ensures set_status { SET_STATUS ≡ 0xF0 }
    ensures get_status { GET_STATUS ≡ 0xF2 }
{}
