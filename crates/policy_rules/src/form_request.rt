//! Requests of forms of card content management that are judged as requests of commands, in one way (GlobalPlatform Card
//! Specification 2.3.1, chapter 9).

ghost use Rattle.std.specs.Prelude.{◌≡◌, ◌≤◌, ℕ, List, Option, length};
ghost use Rattle.policy_machine.specs.declared.channels.TheConstants.{CHANNELS};
ghost use Rattle.policy_rules.specs.Prelude.{Admitted, Apdu, Decodes, ForActingLive, IsInOrder, IsMeant, IsRequestOf, JudgedFirst, Judges, RepresentsState};

use card_types::Tables;
use policy_machine::Rule;
use policy_slots::{JudgedRequest, Live, judge_request};

/// A request of a form whose commands a token may approve, as one of the requests of commands.
pub trait FormRequest: JudgedRequest {
    ghost use Rattle.card_types.specs.declared.tables.Tables.{Tables};
    ghost use Rattle.policy_machine.specs.declared.rule.Rule.{Rule};
    ghost use Rattle.policy_rules.specs.declared.request.Request.{Request};
    ghost use Rattle.policy_slots.specs.declared.live.Live.{Live};

    /// The request of the command.
    ghost request: { Self → Request };

    /// What a token signs of a command with the request is within its data field.
    ghost fits: { (these : Self) (p1 p2 : ℕ) (body : List ℕ) → Decodes (request these) p1 p2 body → length (Self.brought these).before.now ≤ length body };

    /// A command with the request is read as its form is.
    ghost read: { (these : Self) (command : Apdu) → IsRequestOf (request these) command → Self.reads these command };

    /// The rules look at no more of the state than what is kept of it.
    ghost shown: { (page : ℕ → List ℕ) (tables : Tables) (live : Live) (admitted : Admitted) → RepresentsState page tables live admitted.at
        → length admitted.at.volatile.channels ≡ CHANNELS → Self.told page tables live admitted };

    /// The first rule of the form that fails is the first of the command.
    ghost judges: { (these : Self) (admitted : Admitted) → IsRequestOf (request these) admitted.command
        → (found : Option Rule) → JudgedFirst Self.form admitted found → Judges admitted found };
}

/// The first of the rules of a form that fails for the domain in a slot, or none.
pub fn judge_form<M: FormRequest>(
    tables: &Tables,
    live: &Live,
    domain: u8,
    request: &M,
) -> Option<Rule>
    requires in_order { IsInOrder tables.now }
    requires meant { IsMeant (M.request request.now) }
    ensures judged { ForActingLive tables.now live.now domain (λ page admitted. IsRequestOf (M.request request.now) admitted.command → Judges admitted result) }
{
    judge_request(tables, live, domain, request).err()
}
