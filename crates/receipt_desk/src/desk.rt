//! The desk.

ghost use Rattle.std.specs.Prelude.{◌≡◌, ◌↔◌, ◌≤◌, IfSome, IsSome, IsTrue, Some, length};
ghost use Rattle.std.specs.Option.{option_copied};
ghost use Rattle.card_types.specs.Well.{IsKeyLength};
ghost use Rattle.receipt_desk.specs.Judgement.{Judged, last_after, new_desk};
ghost use Rattle.receipt_desk.specs.Judgement as judgement;
ghost use Rattle.receipt_desk.specs.Signing.{Signs};
ghost use Rattle.script_tool.specs.Tokens.{sized_key};
ghost use Rattle.tokens_receipts.specs.Receipt.{aids_of};

use crate::confirmation;
use crate::key::{MadeKey, key_from, made, receipt_fits, token_under};
use crate::verdict::Verdict;
use arrayvec::ArrayVec;
use card_types::{Aid, RECEIPT_LIMIT};
use script_tool::Key;
use std::marker::Model;

/// A key of AES, a card's unique data, and the number of the last receipt.
#[derive(Drop)]
pub struct Desk {
    key: Option<MadeKey>,
    unique: ArrayVec<u8, 20>,
    last: u16,
}

impl Model for Desk {
    ghost use Rattle.std.specs.Option.{option_map};
    ghost use Rattle.receipt_desk.specs.Judgement.{DeskState};
    ghost use Rattle.script_tool.specs.Tokens.{sized_key};

    ghost Value = { DeskState };

    ghost view = { λ s. record { key = option_map sized_key s.key; unique = s.unique.items; last = s.last } };
}

// The number after this one, if there is one.
fn next_number(last: u16) -> Option<u16>
    ensures { result ≡ judgement.next_receipt last }
{
    if last < RECEIPT_LIMIT {
        Some(last + 1)
    } else {
        None
    }
}

impl Desk {
    /// A desk without a key, of a card without unique data, before its first receipt.
    pub fn new() -> Desk
        ensures { result ≡ new_desk }
    {
        Desk {
            key: None,
            unique: ArrayVec::new(),
            last: 0,
        }
    }

    /// Takes a key for tokens and receipts in place of the one that it has: one of AES-128, AES-192 or AES-256. Answers whether the
    /// bytes are such a key.
    pub fn set_key(&mut self, key: &[u8]) -> bool
        ensures answer { IsTrue result ↔ IsKeyLength (length key.now) }
        ensures taken { IsTrue result → self.new ≡ record self.old { key = Some key.now } }
        ensures refused { (IsTrue result → ⊥) → self.new ≡ self.old }
    {
        match key_from(key) {
            Some(key) => {
                self.put_key(key);
                true
            }
            None => false,
        }
    }

    /// Takes a key of AES in place of the one that it has.
    pub(crate) fn put_key(&mut self, key: Key)
        ensures { self.new ≡ record self.old { key = Some (sized_key key) } }
    {
        self.key = Some(made(&key));
    }

    /// Whether it has a key.
    pub fn has_key(&self) -> bool
        ensures { IsTrue result ↔ IsSome self.now.key }
    {
        self.key.is_some()
    }

    /// Takes the unique data of a card.
    pub fn set_unique(&mut self, bytes: &[u8])
        requires short { length bytes.now ≤ 20 }
        ensures { self.new ≡ record self.old { unique = bytes.now } }
    {
        self.unique.clear();
        self.unique.try_extend_from_slice(bytes).unwrap();
    }

    /// Takes this number as that of the last receipt.
    pub fn start_from(&mut self, number: u16)
        ensures { self.new ≡ record self.old { last = number } }
    {
        self.last = number;
    }

    /// The token of a command with this P1 and P2 and these bytes of its data field before the token.
    pub fn sign(&self, p1: u8, p2: u8, before: &[u8]) -> [u8; 16]
        requires key { IsSome self.now.key }
        requires short { length before.now ≤ 255 }
        ensures { Signs self.now p1 p2 before.now result }
    {
        token_under(self.key.as_ref().unwrap(), p1, p2, before)
    }

    /// The verdict on the data field of the reply to a command that was about these AIDs, in the order of the command. The number of
    /// a receipt that fits is the last one then, and nothing else changes.
    pub fn judge(
        &mut self,
        reply: &[u8],
        first: &Aid,
        second: Option<&Aid>,
        third: Option<&Aid>,
    ) -> Verdict
        requires key { IsSome self.old.key }
        requires in_order { IsSome third → IsSome second }
        ensures judged { IfSome self.old.key (λ key. Judged key self.old.unique self.old.last reply.now
            (aids_of first.now (option_copied second.entry) (option_copied third.entry)) result) }
        ensures left { self.new ≡ record self.old { last = last_after result self.old.last } }
    {
        let verdict = self.verdict_on(reply, first, second, third);
        if let Verdict::Fits(number) = verdict {
            self.last = number;
        }
        verdict
    }

    // The verdict, which changes nothing yet.
    fn verdict_on(
        &self,
        reply: &[u8],
        first: &Aid,
        second: Option<&Aid>,
        third: Option<&Aid>,
    ) -> Verdict
        requires key { IsSome self.now.key }
        ensures { IfSome self.now.key (λ key. Judged key self.now.unique self.now.last reply.now
            (aids_of first.now (option_copied second.entry) (option_copied third.entry)) result) }
    {
        let Some(said) = confirmation::read(reply) else {
            return Verdict::Form;
        };
        if said.unique != self.unique.as_slice() {
            return Verdict::Unique;
        }
        let have = said.number;
        let want = next_number(self.last);
        if want != Some(have) {
            return Verdict::Number { have, want };
        }
        let key = self.key.as_ref().unwrap();
        if !receipt_fits(key, have, &self.unique, first, second, third, reply) {
            return Verdict::Mac;
        }
        Verdict::Fits(have)
    }
}
