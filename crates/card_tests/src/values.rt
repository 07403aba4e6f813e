//! Values of the registry: identifiers, privileges and codes, and how things are found.

ghost use Rattle.std.specs.Prelude.{◌≡◌, vec_len};
ghost use Rattle.card_types.specs.declared.limits.TheConstants.{ENTRIES, FILES};

use bitflags::Flags;
use card_types::{
    Aid, CardLife, Found, Kind, Level, Life, LifeMark, Privileges, Tables, find, next_after, set_of,
};
use std::test::Fail;

/// The AID of the Issuer Security Domain on most GlobalPlatform cards, with zeros after it.
const ISSUER_DOMAIN: [u8; 20] = *b"\xa0\0\0\x01\x51\0\0\0\0\0\0\0\0\0\0\0\0\0\0\0";

#[test]
fn keeps_identifiers(rt: HostRuntime) -> Result<(), Fail> {
    let issuer = Aid::new(&ISSUER_DOMAIN[..8]).ok_or("eight bytes")?;
    assert!(rt; issuer.as_bytes() == &ISSUER_DOMAIN[..8]);
    for (count, fits, same) in [
        (4, false, false),
        (5, true, false),
        (7, true, false),
        (8, true, true),
        (16, true, false),
        (17, false, false),
    ] {
        let made = Aid::new(&ISSUER_DOMAIN[..count]);
        assert!(rt;
            (made.is_some(), made == Some(issuer)) == (fits, same),
            "{count} bytes"
        );
    }
    Ok(())
}

/// Whether these have privileges that the Issuer Security Domain has, and others.
fn contain(privileges: Privileges) -> [bool; 4] {
    [
        privileges.contains(Privileges::SECURITY_DOMAIN | Privileges::AUTHORIZED_MANAGEMENT),
        privileges.contains(Privileges::RECEIPT_GENERATION),
        privileges.contains(Privileges::DELEGATED_MANAGEMENT),
        privileges.contains(Privileges::GLOBAL_SERVICE),
    ]
}

#[test]
fn reads_privileges(rt: HostRuntime) {
    let issuer = Privileges::from_bits_retain(0x9E_FE_80);
    assert!(rt; issuer.to_bytes() == [0x9E, 0xFE, 0x80]);
    assert!(rt; contain(issuer) == [true, true, false, false]);
    let cases: [(&[u8], Option<Privileges>); 4] = [
        (&[0x9E, 0xFE, 0x80], Some(issuer)),
        (&[0x80], Some(Privileges::SECURITY_DOMAIN)),
        (&[0x80, 0x00], None),
        (&[0x80, 0x00, 0x08], None),
    ];
    for (bytes, wanted) in cases {
        assert!(rt; Privileges::from_bytes(bytes) == wanted, "{bytes:?}");
    }
}

#[test]
fn has_the_codes(rt: HostRuntime) {
    let cards = [
        (0x01, CardLife::OpReady),
        (0x07, CardLife::Initialized),
        (0x0F, CardLife::Secured),
        (0x7F, CardLife::Locked),
        (0xFF, CardLife::Terminated),
    ];
    for (code, life) in cards {
        assert!(rt; (life.code(), CardLife::from_code(code)) == (code, Some(life)));
    }
    let lives = [
        (0x03, Life::Installed, false),
        (0x07, Life::Selectable, false),
        (0x0F, Life::Personalized, false),
        (0x83, Life::Installed, true),
        (0x8F, Life::Personalized, true),
    ];
    for (code, life, locked) in lives {
        let mark = LifeMark { life, locked };
        assert!(rt; (mark.code(), LifeMark::from_code(code)) == (code, Some(mark)));
    }
    let levels = [
        (0x01, Level::Mac),
        (0x03, Level::EncMac),
        (0x11, Level::MacR),
        (0x13, Level::EncMacR),
        (0x33, Level::Full),
    ];
    for (code, level) in levels {
        assert!(rt; (level.code(), Level::from_code(code)) == (code, Some(level)));
    }
}

/// Whether the Issuer Security Domain is found by its AID, and the first of each kind and none after it.
fn are_found(tables: &Tables, issuer: &Aid) -> bool
    requires entries { vec_len tables.now.entries ≡ ENTRIES }
    requires files { vec_len tables.now.files ≡ FILES }
{
    find(tables, issuer) == Some(Found::Entry(0))
        && next_after(tables, Kind::Issuer, None) == Some(Found::Entry(0))
        && next_after(tables, Kind::Issuer, Some(issuer)) == None
        && next_after(tables, Kind::Entries, None) == None
        && next_after(tables, Kind::Files, None) == Some(Found::File(0))
}

#[test]
fn makes_the_factory_card(rt: HostRuntime) -> Result<(), Fail> {
    let tables = Tables::factory(rt.alloc())?;
    let issuer = Aid::new(&ISSUER_DOMAIN[..8]).ok_or("eight bytes")?;
    let set = set_of(&tables.keys, 0, 0x30);
    assert!(rt; are_found(&tables, &issuer) && set == Some([0, 1, 2]));
    Ok(())
}

#[test]
fn finds_the_keys_of_a_set(rt: HostRuntime) -> Result<(), Fail> {
    let tables = Tables::factory(rt.alloc())?;
    for (owner, version, wanted) in [
        (0, 0x30, Some([0, 1, 2])),
        (0, 0x31, None),
        (0, 0x70, None),
        (0, 0xFF, None),
        (1, 0x30, None),
    ] {
        assert!(rt;
            set_of(&tables.keys, owner, version) == wanted,
            "{owner} {version}"
        );
    }
    Ok(())
}
