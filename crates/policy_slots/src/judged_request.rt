//! A request of a form of card content management, whose commands a token may approve (GlobalPlatform Card Specification 2.3.1,
//! chapter 9): it is judged by the rules that such commands have in common, by those of its form, and by those on its approval.

ghost use Rattle.std.specs.Prelude.{◌≡◌, ◌↔◌, ◌≤◌, ℕ, Bool, List, None, Some, true, IfErr, IfOk, IfSome, IsTrue, OnOk, length};
ghost use Rattle.policy_slots.specs.Prelude.{Admitted, Apdu, AskedFails, FindsConfirmer, ForActing, Holds, IsBroughtFor, IsFirst, IsInOrder, IsJudgeable, IsTokenForm, JudgedFirst, JudgedForm, MayReceipt, OwnFirst, OwnRefuses, delegated_management};

use crate::delegation::{Signed, is_delegate, judge_receipt, judge_token};
use crate::live::Live;
use crate::management::judge_management;
use card_types::Tables;
use policy_machine::Rule;

/// What the judgement of a request found: what the rules of its form did, and the slot of the domain that confirms the command, or
/// none where nobody does.
#[derive(Clone, Copy, Debug)]
pub struct Judged<T> {
    pub found: T,
    pub receipter: Option<u8>,
}

/// How a command is approved: what it brings for that, whether it is delegated, and whether it may have a receipt then.
#[derive(Clone, Copy, Debug)]
pub struct Approving<'a> {
    pub signed: Signed<'a>,
    pub delegated: bool,
    pub receipted: bool,
}

impl<'a> Approving<'a> {
    /// For a command of the domain in a slot, which is delegated where the domain holds Delegated Management.
    pub fn of_delegate(
        tables: &Tables,
        domain: u8,
        signed: Signed<'a>,
        receipted: bool,
    ) -> Approving<'a>
        ensures signed { result.signed ≡ signed.entry }
        ensures delegated { ForActing tables.now domain (λ page admitted. IsTrue result.delegated ↔ Holds admitted delegated_management) }
        ensures receipted { result.receipted ≡ receipted }
    {
        Approving {
            signed,
            delegated: is_delegate(tables, domain),
            receipted,
        }
    }
}

/// A request of a form whose commands a token may approve.
pub trait JudgedRequest {
    ghost use Rattle.card_types.specs.declared.tables.Tables.{Tables};
    ghost use Rattle.policy_slots.specs.declared.delegation.Signed.{Signed};
    ghost use Rattle.policy_slots.specs.declared.live.Live.{Live};

    /// What the rules of the form's own find.
    type Found: Copy;

    ghost form: { JudgedForm };

    ghost receipted: { Bool };

    /// The request is that of the command.
    ghost reads: { Self → Apdu → Type 0 };

    ghost asked: { (request : Self) (command : Apdu) → reads request command → form.Asked };

    ghost brought: { Self → Signed };

    /// What the rules look at of the state beside the tables is told.
    ghost told: { (ℕ → List ℕ) → Tables → Live → Admitted → Type 0 };

    ghost finds: { Self → Tables → Live → ℕ → Self.Found → Type 0 };

    /// Judges the rules of the form's own for the domain in a slot. What is kept of the state beside the tables tells what is
    /// selected, and the load session.
    fn judge_own(&self, tables: &Tables, live: &Live, domain: u8) -> Result<Self::Found, Rule>
        requires in_order { IsInOrder tables.now }
        ensures passed { ForActing tables.now domain (λ page admitted. told page tables.now live.now admitted → (is : reads self.now admitted.command)
            → OnOk result (OwnFirst form admitted (asked self.now admitted.command is) None)) }
        ensures refused { ForActing tables.now domain (λ page admitted. told page tables.now live.now admitted → (is : reads self.now admitted.command)
            → IfErr result (OwnRefuses form admitted (asked self.now admitted.command is))) }
        ensures found { IfOk result (finds self.now tables.now live.now domain) };

    /// How a command of the domain in a slot is approved.
    fn approving(&self, tables: &Tables, domain: u8) -> Approving<'_>
        ensures signed { result.signed ≡ brought self.now }
        ensures delegated { ForActing tables.now domain (λ page admitted. IsTrue result.delegated ↔ form.delegation.is_delegated admitted) }
        ensures receipted { result.receipted ≡ receipted };

    ghost judgeable: { IsJudgeable form };

    ghost lawful: { IsTokenForm form receipted };

    ghost meant: { (request : Self) (command : Apdu) (is : reads request command) → IsBroughtFor form command (asked request command is) (brought request) };
}

// The rules on the approval of a command of the domain in a slot, which are for a delegated one: the slot of the domain that confirms
// it, or none where nobody does.
fn judge_approval<M: JudgedRequest>(
    tables: &Tables,
    domain: u8,
    request: &M,
) -> Result<Option<u8>, Rule>
    requires in_order { IsInOrder tables.now }
    requires short { length (M.brought request.now).before.now ≤ 255 }
    ensures passed { ForActing tables.now domain (λ page admitted. (is : M.reads request.now admitted.command)
        → OnOk result (IsFirst (AskedFails M.form admitted (M.asked request.now admitted.command is)) M.form.delegation.rules None)) }
    ensures refused { ForActing tables.now domain (λ page admitted. (is : M.reads request.now admitted.command)
        → IfErr result (λ rule. IsFirst (AskedFails M.form admitted (M.asked request.now admitted.command is)) M.form.delegation.rules (Some rule))) }
    ensures receipter { ForActing tables.now domain (λ page admitted. M.receipted ≡ true
        → IfOk result (FindsConfirmer (M.form.delegation.is_delegated admitted) tables.now admitted)) }
    ensures able { IfOk result (λ found. IfSome found (MayReceipt tables.now)) }
{
    let approval = request.approving(tables, domain);
    if !approval.delegated {
        return Ok(None);
    }
    if let Err(rule) = judge_token(tables, domain, &approval.signed) {
        return Err(Rule::TK(rule));
    }
    if !approval.receipted {
        return Ok(None);
    }
    match judge_receipt(tables, domain) {
        Ok(found) => Ok(found),
        Err(rule) => Err(Rule::RC(rule)),
    }
}

/// Judges a request for the domain in a slot.
pub fn judge_request<M: JudgedRequest>(
    tables: &Tables,
    live: &Live,
    domain: u8,
    request: &M,
) -> Result<Judged<M::Found>, Rule>
    requires in_order { IsInOrder tables.now }
    requires short { length (M.brought request.now).before.now ≤ 255 }
    ensures passed { ForActing tables.now domain (λ page admitted. M.told page tables.now live.now admitted → M.reads request.now admitted.command
        → OnOk result (JudgedFirst M.form admitted None)) }
    ensures refused { ForActing tables.now domain (λ page admitted. M.told page tables.now live.now admitted → M.reads request.now admitted.command
        → IfErr result (λ rule. JudgedFirst M.form admitted (Some rule))) }
    ensures found { IfOk result (λ judged. M.finds request.now tables.now live.now domain judged.found) }
    ensures receipter { ForActing tables.now domain (λ page admitted. M.receipted ≡ true
        → IfOk result (λ judged. FindsConfirmer (M.form.delegation.is_delegated admitted) tables.now admitted judged.receipter)) }
    ensures able { IfOk result (λ judged. IfSome judged.receipter (MayReceipt tables.now)) }
{
    judge_management(tables, domain)?;
    let found = request.judge_own(tables, live, domain)?;
    let receipter = judge_approval(tables, domain, request)?;
    Ok(Judged { found, receipter })
}
