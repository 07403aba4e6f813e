//! Class bytes (ISO/IEC 7816-4:2013, 5.4; GlobalPlatform Card Specification 2.3.1, 11.1.4).

ghost use Rattle.std.specs.Prelude.{◌≡◌, ◌↔◌, IsTrue, Contains, Some};
ghost use Rattle.policy_machine.specs.Classes.{class_of as class_of_byte, instructions_of, managing, protects};
ghost use Rattle.policy_machine.specs.declared.class.Class.TheVariants.{Plain as ThePlain};

use crate::instruction::{
    DELETE, EXTERNAL_AUTHENTICATE, GET_DATA, GET_STATUS, INITIALIZE_UPDATE, INSTALL, LOAD,
    MANAGE_CHANNEL, PUT_KEY, SELECT, SET_STATUS, STORE_DATA,
};
use apdu_core::off_channel;

/// The classes that a card takes.
#[derive(Clone, Copy, Debug, PartialEq, Eq)]
pub enum Class {
    /// 00 to 03.
    Interindustry,
    /// 80 to 83.
    Plain,
    /// 84 to 87, with secure messaging.
    Secure,
}

const INTERINDUSTRY: [u8; 3] = [SELECT, MANAGE_CHANNEL, GET_DATA];

const PLAIN: [u8; 2] = [GET_DATA, INITIALIZE_UPDATE];

const SECURE: [u8; 2] = [EXTERNAL_AUTHENTICATE, GET_DATA];

/// The instructions of card content management that both of these classes have.
const MANAGING: [u8; 7] = [
    PUT_KEY, STORE_DATA, DELETE, INSTALL, LOAD, SET_STATUS, GET_STATUS,
];

impl Class {
    /// The class of a class byte.
    pub fn of(byte: u8) -> Option<Class>
        ensures { result ≡ class_of_byte byte }
    {
        match off_channel(byte) {
            0x00 => Some(Class::Interindustry),
            0x80 => Some(Class::Plain),
            0x84 => Some(Class::Secure),
            _ => None,
        }
    }

    /// Whether the class has this instruction.
    pub fn has(self, ins: u8) -> bool
        ensures { IsTrue result ↔ Contains (instructions_of self) ins }
    {
        match self {
            Class::Interindustry => INTERINDUSTRY.contains(&ins),
            Class::Plain => PLAIN.contains(&ins) || MANAGING.contains(&ins),
            Class::Secure => SECURE.contains(&ins) || MANAGING.contains(&ins),
        }
    }
}

/// Whether it is card content management outside of secure messaging, which no card takes.
pub fn is_plain_management(class: Class, ins: u8) -> bool
    ensures { IsTrue result ↔ ((class ≡ ThePlain) × Contains managing ins) }
{
    class == Class::Plain && MANAGING.contains(&ins)
}

/// Whether a command of this class and instruction is protected by the session of its channel.
pub fn is_protected(class: Class, ins: u8) -> bool
    ensures { result ≡ protects (Some class) ins }
{
    class == Class::Secure && ins != EXTERNAL_AUTHENTICATE
}
