//! Rules that no command of a card comes to, since SELECT takes no locked entry, and of a locked card the Issuer
//! Security Domain alone: M2 and IU1, on cards that are laid out with another entry selected.

use apdu_core::Status;
use bitflags::Flags;
use card_core::Card;
use card_types::{
    Aid, CardLife, Entry, FACTORY_MODULE, Life, LifeMark, Privileges, factory_file, factory_key,
    issuer_domain,
};
use flash_core::MemFlash;
use policy_rules::{Live, Rule, RuleIU, RuleM, judge, parse};
use rec_store::lay_out;
use std::alloc::Global;
use std::test::Fail;

/// How many writes and syncs a device takes.
const ROOM: u32 = 99;

/// In the place of a rule: the command is accepted.
const DONE: &str = "accepted";

fn name(rule: Option<Rule>) -> &'static str {
    match rule {
        Some(rule) => rule.name(),
        None => DONE,
    }
}

/// The card on a device.
fn powered_on(alloc: Global, flash: MemFlash) -> Result<Card<MemFlash>, Fail> {
    match Card::power_on(alloc, flash) {
        Ok(card) => Ok(card),
        Err(_) => Err("a card".into()),
    }
}

/// A security domain in the Issuer Security Domain.
fn domain(locked: bool) -> Result<Entry, Fail> {
    Ok(Entry {
        aid: Aid::new(&[0xD1, 0, 0, 0, 1]).ok_or("five bytes")?,
        domain: 0,
        file: 0,
        module: Aid::new(&FACTORY_MODULE).ok_or("eight bytes")?,
        life: LifeMark {
            life: Life::Personalized,
            locked,
        },
        privileges: Privileges::SECURITY_DOMAIN,
        receipts: 0,
    })
}

/// A card with this domain in slot 1, which has no keys of its own.
fn laid_out(alloc: Global, life: CardLife, locked: bool) -> Result<Card<MemFlash>, Fail> {
    let mut flash = MemFlash::new(alloc, ROOM)?;
    lay_out(
        &mut flash,
        life,
        &[Some(issuer_domain()), Some(domain(locked)?)],
        &[Some(factory_file())],
        &[
            Some(factory_key(1)),
            Some(factory_key(2)),
            Some(factory_key(3)),
        ],
        &[],
    )?;
    powered_on(alloc, flash)
}

/// A command: its instruction byte, P1, P2 and data field.
type Form = (u8, u8, u8, &'static [u8]);

/// PUT KEY, STORE DATA, DELETE and INITIALIZE UPDATE.
const FORMS: [Form; 4] = [
    (0xD8, 0x00, 0x01, b"\x70\x88\x11\x10@ABCDEFGHIJKLMNO\x03PQR"),
    (0xE2, 0x90, 0x00, b"\x45\x01\xAA"),
    (0xE4, 0x00, 0x00, b"\xD2\x01\x30"),
    (0x50, 0x00, 0x00, b"01234567"),
];

/// The rule that refuses a command where the entry in a slot is selected on channel 0.
fn judged(card: &Card<MemFlash>, slot: u8, form: Form) -> Result<&'static str, Fail> {
    let (ins, p1, p2, body) = form;
    if ins != 0xD8 && ins != 0xE2 && ins != 0xE4 && ins != 0x50 {
        return Err("an instruction".into());
    }
    let live = Live {
        selected: [Some(slot), None, None, None],
        ..Live::powered_on()
    };
    if body.len() > 255 {
        return Err("a data field of a short command".into());
    }
    let request = match parse(ins, p1, p2, body) {
        Ok(request) => request,
        Err(rule) => return Err(rule.name().into()),
    };
    Ok(name(judge(card.tables(), &live, 0, &request, true)))
}

/// Whether these rules refuse the commands.
fn are_judged(card: &Card<MemFlash>, slot: u8, rules: [&str; 4]) -> Result<bool, Fail> {
    for index in 0..4usize {
        if judged(card, slot, FORMS[index])? != rules[index] {
            return Ok(false);
        }
    }
    Ok(true)
}

/// The state of the card, whether its domain is locked, the slot of what is selected, and the rules for the commands.
const CASES: [(CardLife, bool, u8, [&str; 4]); 4] = [
    (CardLife::OpReady, false, 1, [DONE, DONE, "DK1", DONE]),
    (CardLife::Secured, true, 1, ["M2", "M2", "M2", "M2"]),
    (CardLife::Locked, false, 1, ["M1", "M1", "M1", "IU1"]),
    (CardLife::Locked, true, 1, ["M1", "M1", "M1", "M2"]),
];

#[test]
fn a_locked_card_and_a_locked_domain_are_not_managed(rt: HostRuntime) -> Result<(), Fail> {
    for (life, locked, slot, rules) in CASES {
        let card = laid_out(rt.alloc(), life, locked)?;
        assert!(rt; are_judged(&card, slot, rules)?, "{life:?} {locked}");
    }
    Ok(())
}

#[test]
fn a_locked_card_and_a_locked_domain_answer_6985(rt: HostRuntime) {
    let statuses = [Rule::M(RuleM::M2).status(), Rule::IU(RuleIU::IU1).status()];
    assert!(rt; statuses == [Status(0x6985); 2]);
}
