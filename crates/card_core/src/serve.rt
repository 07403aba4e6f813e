//! What is done with a command (GlobalPlatform Card Specification 2.3.1, chapter 11).

ghost use Rattle.std.specs.Prelude.{◌≡◌, ◌⊎◌, ◌<◌, ◌≤◌, ◌++◌, ◌==◌, ℕ, List, [], length, false, true, None, Some, Option, IsSome, Contains, OnOk, OnErr, IfOk, IfErr, IfSome, option_copied, slice_index_or};
ghost use Rattle.card_core.specs.Prelude.{AreCards, AreFree, Bars, CarriesOut, ForCome, ForKept, HasPages, IsBuilt, IsInSession, IsKnown, IsOpenedIn, IsPassed, IsReady, IsSound, IsTerminatedFor, KeptRepresents, MayCommit, Passes, RepresentsSecureChannel, RepresentsSome, Secured, Serves, Session, State, apdu_of, changing, class_of, held_on, held_passed, kept_of, kept_set, live_passed, live_without_place, managing, plain_of, reply_bytes, rule_of, session_reply, status_bytes, status_word, with_due};
ghost use Rattle.policy_machine.specs.Classes.{is_protected as is_protected_command};
ghost use Rattle.policy_machine.specs.declared.instruction.TheConstants.{GET_DATA, GET_STATUS, INITIALIZE_UPDATE};
ghost use Rattle.scp03_card.specs.declared.close.TheConstants.{DATA_LIMIT};

use crate::admit::{Received, admit, is_terminated_for};
use crate::channel_session::ChannelSession;
use crate::channels::Channels;
use crate::perform::perform;
use crate::read_request::read_request;
use crate::reply::{Answer, Reply, write_status};
use crate::secure_messaging::{close_reply, open_command};
use crate::workspace::Workspace;
use apdu_core::Command;
use card_types::CardLife;
use flash_core::Flash;
use policy_rules::{
    CHANNELS, EXTERNAL_AUTHENTICATE, GET_STATUS, LOAD, Live, Place, Rule, RuleG,
    is_plain_management, is_protected,
};
use rec_store::Records;

// Checks the life cycle state of the card, and drops an offer that the command doesn't answer.
fn check_class(
    card_life: CardLife,
    received: &Received<'_>,
    held: &mut ChannelSession,
) -> Result<(), RuleG>
    ensures ok { OnOk result (IsTerminatedFor card_life received.now.class received.now.command.ins → ⊥) }
    ensures kept { OnOk result (held.new ≡ held_passed (received.now.command.ins == EXTERNAL_AUTHENTICATE) held.old) }
    ensures over { IfErr result (λ rule. (rule ≡ RuleG.G5) × IsTerminatedFor card_life received.now.class received.now.command.ins) }
    ensures lost { OnErr result (held.new ≡ held_passed false held.old) }
{
    let ins = received.command.ins;
    let over = is_terminated_for(card_life, received.class, ins);
    if over || ins != EXTERNAL_AUTHENTICATE {
        held.drop_offer();
    }
    if over { Err(RuleG::G5) } else { Ok(()) }
}

// Forgets the place in a listing that the channel has, and answers it for the command that may go on at it: `taken` keeps it.
fn take_place<'a>(
    live: &mut Live,
    received: &Received<'_>,
    taken: &'a mut Option<Place>,
) -> Option<&'a Place>
    requires { received.now.channel < CHANNELS }
    ensures place { received.now.command.ins ≡ GET_STATUS → option_copied result ≡ slice_index_or live.old.places received.now.channel None }
    ensures forgotten { live.new ≡ live_without_place live.old received.now.channel }
{
    if received.command.ins == GET_STATUS {
        *taken = live.take_place(received.channel);
        return taken.as_ref();
    }
    live.forget_place(received.channel);
    None
}

// After secure messaging the load session of the channel ends, unless the command goes on with it.
fn pass_session(received: &Received<'_>, live: &mut Live)
    ensures { live.new ≡ live_passed received.now.command.ins received.now.channel live.old }
{
    if received.command.ins != LOAD {
        live.end_load(received.channel);
    }
}

// Does what a command asks for, and appends the reply's data; a refusal ends what it has to.
fn act<F: Flash>(
    records: &mut Records<F>,
    channels: &mut Channels,
    received: &Received<'_>,
    command: &Command<'_>,
    place: Option<&Place>,
    reply: &mut Reply,
) -> Answer
    requires ready { IsReady command.now.ins records.old channels.old received.now reply.old.items }
    requires built { IsBuilt command.now.ins }
    requires short { length command.now.body.now ≤ 255 }
    requires some { RepresentsSome (kept_of records.old.tables channels.old) }
    ensures done { ForKept (kept_of records.old.tables channels.old) (λ page admitted. IsPassed received.now.channel (apdu_of command.now) (option_copied place.entry) admitted
        → CarriesOut (with_due page channels.new.loading) admitted (kept_of records.new.tables channels.new) reply.new.items result) }
    ensures cards { AreCards records.new.tables }
    ensures same { (records.new.flash ≡ records.old.flash) × (records.new.live ≡ true) }
    ensures writes { AreFree records.old.tables channels.new.loading.writes.items }
    ensures refused { OnErr result ((records.new ≡ records.old) × (channels.new.loading.writes.items ≡ [])) }
    ensures idle { (command.now.ins ≡ INITIALIZE_UPDATE → ⊥) → (Contains changing command.now.ins → ⊥) → (records.new ≡ records.old) × (channels.new.loading.writes.items ≡ []) }
    ensures kept { IsInSession (held_on channels.old.sessions received.now.channel) → (command.now.ins ≡ GET_DATA) ⊎ Contains managing command.now.ins
        → channels.new.sessions ≡ channels.old.sessions }
    ensures room { length reply.new.items ≤ DATA_LIMIT }
{
    let at = usize::from(received.channel);
    let request = match read_request(&channels.sessions[at], command) {
        Ok(request) => request,
        Err(rule) => {
            channels.refuse(rule, received.channel);
            return Err(rule);
        }
    };
    let served = perform(records, channels, received, &request, place, reply);
    if let Err(rule) = served {
        channels.refuse(rule, received.channel);
    }
    served
}

// Passes a command on to the rules of its own, where none on the life cycle state of the card and on secure messaging refuses it. A
// protected command is opened: its plain data field is in the front of `plain` then, and its length is answered.
fn pass(
    card_life: CardLife,
    received: &Received<'_>,
    live: &mut Live,
    held: &mut ChannelSession,
    plain: &mut [u8; 255],
) -> Result<Option<usize>, RuleG>
    requires short { length received.now.command.body.now ≤ 255 }
    requires known { IsKnown received.now.command.class received.now.command.ins }
    requires class { class_of received.now.command.class ≡ Some received.now.class }
    ensures passed { ForCome received.now live.old held.old (λ page card state bytes. card.tables.life ≡ card_life
        → IfOk result (λ opened. Passes page (kept_set card live.new received.now.channel held.new) state bytes (apdu_of received.now.command) held.new opened plain.new)) }
    ensures refused { ForCome received.now live.old held.old (λ page card state bytes. card.tables.life ≡ card_life
        → IfErr result (Bars page (kept_set card live.new received.now.channel held.new) state bytes)) }
    ensures short { IfOk result (λ opened. IfSome opened (λ count. count ≤ 255)) }
    ensures secured { IfOk result (λ opened. IfSome opened (λ count. IsInSession held.new × (is_protected_command (apdu_of received.now.command) ≡ true))) }
    ensures managed { OnOk result (Contains managing received.now.command.ins → IsInSession held.new) }
    ensures selected { OnOk result (live.new.selected ≡ live.old.selected) }
{
    check_class(card_life, received, held)?;
    if is_plain_management(received.class, received.command.ins) {
        held.end();
        live.end_load(received.channel);
        return Err(RuleG::G6);
    }
    if !is_protected(received.class, received.command.ins) {
        pass_session(received, live);
        return Ok(None);
    }
    match open_command(held, &received.command, plain) {
        Ok(count) => {
            pass_session(received, live);
            Ok(Some(count))
        }
        Err(rule) => {
            // A channel without a session has no load session.
            live.end_load(received.channel);
            Err(rule)
        }
    }
}

// The data field in plain of a command that has passed.
fn plain_body<'a>(command: &Command<'a>, opened: Option<usize>, plain: &'a [u8; 255]) -> &'a [u8]
    requires short { length command.now.body.now ≤ 255 }
    requires opened { IfSome opened (λ count. count ≤ 255) }
    ensures plain { result.now ≡ plain_of (apdu_of command.now) opened plain.now }
    ensures short { length result.now ≤ 255 }
{
    match opened {
        None => command.body,
        Some(count) => &plain[..count],
    }
}

// Closes a reply in plain, and answers the rule.
fn close_plain(served: Answer, reply: &mut Reply) -> Option<Rule>
    requires { length reply.old.items ≤ DATA_LIMIT }
    ensures closed { reply.new.items ≡ reply.old.items ++ status_bytes (status_word served) }
    ensures rule { result ≡ rule_of served }
{
    match served {
        Ok(status) => {
            write_status(status, reply);
            None
        }
        Err(rule) => {
            write_status(rule.status(), reply);
            Some(rule)
        }
    }
}

// Closes a reply to a protected command, and answers the rule.
fn close_protected(served: Answer, held: &mut ChannelSession, reply: &mut Reply) -> Option<Rule>
    requires secured { IsInSession held.old }
    requires room { length reply.old.items ≤ DATA_LIMIT }
    ensures closed { (session : Session) → RepresentsSecureChannel held.old (Secured session) → reply.new.items ≡ session_reply session reply.old.items (status_word served) }
    ensures rule { result ≡ rule_of served }
    ensures same { held.new ≡ held.old }
{
    match served {
        Ok(status) => {
            close_reply(held, status, reply);
            None
        }
        Err(rule) => {
            close_reply(held, rule.status(), reply);
            Some(rule)
        }
    }
}

// Closes the reply to a command, in the session that it was opened in, and answers the rule.
fn close(
    served: Answer,
    opened: Option<usize>,
    held: &mut ChannelSession,
    reply: &mut Reply,
) -> Option<Rule>
    requires secured { IfSome opened (λ count. IsInSession held.old) }
    requires room { length reply.old.items ≤ DATA_LIMIT }
    ensures closed { (session : Option Session) → IsOpenedIn opened held.old session → reply.new.items ≡ reply_bytes session reply.old.items (status_word served) }
    ensures rule { result ≡ rule_of served }
    ensures same { held.new ≡ held.old }
{
    match opened {
        None => close_plain(served, reply),
        Some(_) => close_protected(served, held, reply),
    }
}

/// Does what the bytes ask for, and makes the whole reply. It answers the rule that refused them, if one did. It commits
/// nothing.
pub fn serve<F: Flash>(
    records: &mut Records<F>,
    channels: &mut Channels,
    space: &mut Workspace,
    bytes: &[u8],
    reply: &mut Reply,
) -> Option<Rule>
    requires live { records.old.live ≡ true }
    requires clean { records.old.staged ≡ [] }
    requires cards { AreCards records.old.tables }
    requires some { RepresentsSome (kept_of records.old.tables channels.old) }
    requires unwritten { channels.old.loading.writes.items ≡ [] }
    requires empty { reply.old.items ≡ [] }
    ensures served { (page : ℕ → List ℕ) (state : State) → HasPages page → KeptRepresents page (kept_of records.old.tables channels.old) state → IsSound state
        → Serves (with_due page channels.new.loading) state bytes.now (kept_of records.new.tables channels.new) reply.new.items result }
    ensures writes { AreFree records.old.tables channels.new.loading.writes.items }
    ensures cards { AreCards records.new.tables }
    ensures same { (records.new.flash ≡ records.old.flash) × (records.new.live ≡ true) }
    ensures refused { IsSome result → (records.new ≡ records.old) × (channels.new.loading.writes.items ≡ []) }
    ensures idle { (MayCommit bytes.now → ⊥) → (records.new ≡ records.old) × (channels.new.loading.writes.items ≡ []) }
{
    let received = match admit(records.tables(), &channels.live, bytes) {
        Ok(received) => received,
        Err(rule) => return close_plain(Err(Rule::G(rule)), reply),
    };
    let at = usize::from(received.channel);
    let place = take_place(&mut channels.live, &received, &mut space.place);
    let life = records.tables().life;
    let plain = &mut space.plain;
    let session = &mut channels.sessions[at];
    let opened = match pass(life, &received, &mut channels.live, session, plain) {
        Ok(opened) => opened,
        Err(rule) => return close_plain(Err(Rule::G(rule)), reply),
    };
    let command = Command {
        body: plain_body(&received.command, opened, plain),
        ..received.command
    };
    let served = act(records, channels, &received, &command, place, reply);
    close(served, opened, &mut channels.sessions[at], reply)
}
