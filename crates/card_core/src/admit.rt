//! What every command passes before the rules of its own are judged (GlobalPlatform Card Specification 2.3.1, 11.1.4).

ghost use Rattle.std.specs.Prelude.{◌≡◌, ◌≢◌, ◌↔◌, IsTrue, false, true, IfOk, IfErr, ℕ, List, None, Some, slice_index_or};
ghost use Rattle.card_core.specs.Prelude.{GeneralFails, GeneralRefusalLeaves, IsFirst, IsKnown, IsTerminatedFor, RepresentsState, Short, State, apdu_of, class_of, command_rules, general_rules, is_domain_in};
ghost use Rattle.apdu_core.specs.ClassBytes.{channel_of as channel_of_byte};

use apdu_core::Command;
use bitflags::Flags;
use card_types::{CardLife, Privileges, Tables, in_slot};
use policy_rules::{Class, GET_DATA, Live, MANAGE_CHANNEL, RuleG, SELECT, channel_of};

// Whether the entry in a slot is a security domain.
fn is_domain(tables: &Tables, slot: u8) -> bool
    ensures { result ≡ is_domain_in tables.now.entries.items slot }
{
    match in_slot(&tables.entries, slot) {
        Some(entry) => entry.privileges.contains(Privileges::SECURITY_DOMAIN),
        None => false,
    }
}

// Whether the entry in a slot is an application, which takes SELECT and MANAGE CHANNEL alone.
fn is_not_for(tables: &Tables, slot: u8, ins: u8) -> bool
    ensures { IsTrue result ↔ ((is_domain_in tables.now.entries.items slot ≡ false) × (ins ≢ SELECT) × (ins ≢ MANAGE_CHANNEL)) }
{
    !is_domain(tables, slot) && ins != SELECT && ins != MANAGE_CHANNEL
}

/// Whether the card is terminated, which answers GET DATA in plain alone.
pub fn is_terminated_for(card_life: CardLife, class: Class, ins: u8) -> bool
    ensures { IsTrue result ↔ IsTerminatedFor card_life class ins }
{
    card_life == CardLife::Terminated && (ins != GET_DATA || class == Class::Secure)
}

/// A command whose class, channel and instruction the card takes.
#[derive(Clone, Copy)]
pub struct Received<'a> {
    pub command: Command<'a>,
    pub class: Class,

    /// The logical channel that it comes on.
    pub channel: u8,

    /// The slot of the entry that is selected there.
    pub selected: u8,
}

/// The command that the bytes are, or the first of the rules on class, channel and instruction that fails.
pub fn admit<'a>(tables: &Tables, live: &Live, bytes: &'a [u8]) -> Result<Received<'a>, RuleG>
    ensures known { IfOk result (λ received. IsKnown received.command.class received.command.ins) }
    ensures spelled { IfOk result (λ received. Short (apdu_of received.command) bytes.now) }
    ensures class { IfOk result (λ received. class_of received.command.class ≡ Some received.class) }
    ensures channel { IfOk result (λ received. received.channel ≡ channel_of_byte received.command.class) }
    ensures selected { IfOk result (λ received. slice_index_or live.now.selected received.channel None ≡ Some received.selected) }
    ensures domain { IfOk result (λ received. received.command.ins ≢ SELECT → received.command.ins ≢ MANAGE_CHANNEL
        → is_domain_in tables.now.entries.items received.selected ≡ true) }
    ensures passed { (page : ℕ → List ℕ) (state : State) → RepresentsState page tables.now live.now state
        → IfOk result (λ received. IsFirst (GeneralFails state bytes.now) command_rules None) }
    ensures refused { (page : ℕ → List ℕ) (state : State) → RepresentsState page tables.now live.now state
        → IfErr result (λ rule. IsFirst (GeneralFails state bytes.now) general_rules (Some rule)) }
    ensures leaves { (state : State) → IfErr result (λ rule. GeneralRefusalLeaves state bytes.now rule state.volatile) }
{
    let Ok(command) = Command::read(bytes) else {
        return Err(RuleG::G1);
    };
    let Some(class) = Class::of(command.class) else {
        return Err(RuleG::G2);
    };
    let channel = channel_of(command.class);
    let Some(selected) = live.selected[usize::from(channel)] else {
        return Err(RuleG::G3);
    };
    let ins = command.ins;
    if !class.has(ins) {
        return Err(RuleG::G4);
    }
    if is_not_for(tables, selected, ins) {
        return Err(RuleG::G4);
    }
    Ok(Received {
        command,
        class,
        channel,
        selected,
    })
}
