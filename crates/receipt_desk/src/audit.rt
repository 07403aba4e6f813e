//! A desk that takes lines.

ghost use Rattle.std.specs.Prelude.{◌≡◌, [], IfSome, IsSome};
ghost use Rattle.receipt_desk.specs.Audit.{Does, aids_in, desk_taker, new_audit};
ghost use Rattle.receipt_desk.specs.Judgement.{Judged, last_after};
ghost use Rattle.receipt_desk.specs.Obeys.{Obeys};
ghost use Rattle.receipt_desk.specs.declared.line.DeskLine.{DeskLine};

use crate::aids::Aids;
use crate::desk::Desk;
use crate::line::DeskLine;
use crate::receipted::Receipted;
use crate::signing::Signing;
use crate::text::{push_token_line, push_verdict_line};
use crate::verdict::Verdict;
use line_runs::{LineTaker, Taking, Text};
use std::marker::Model;

/// A desk that takes lines, and whether a receipt has had another verdict than that it fits.
#[derive(Drop)]
pub struct Audit {
    desk: Desk,
    differs: bool,
}

impl Model for Audit {
    ghost use Rattle.receipt_desk.specs.Audit.{AuditState};

    ghost Value = { AuditState };

    ghost view = { λ s. record { desk = s.desk; differs = s.differs } };
}

// The verdict on a receipt that a line brings.
fn judge_receipt(desk: &mut Desk, receipted: &Receipted) -> Verdict
    requires key { IsSome desk.old.key }
    ensures judged { IfSome desk.old.key (λ key. Judged key desk.old.unique desk.old.last receipted.now.reply.items (aids_in receipted.now.aids) result) }
    ensures left { desk.new ≡ record desk.old { last = last_after result desk.old.last } }
{
    match &receipted.aids {
        Aids::One(first) => desk.judge(&receipted.reply, first, None, None),
        Aids::Two(first, second) => desk.judge(&receipted.reply, first, Some(second), None),
        Aids::Three(first, second, third) => {
            desk.judge(&receipted.reply, first, Some(second), Some(third))
        }
    }
}

impl Audit {
    /// A new desk, before its first receipt.
    pub fn new() -> Audit
        ensures { result ≡ new_audit }
    {
        Audit {
            desk: Desk::new(),
            differs: false,
        }
    }

    /// Whether a receipt has had another verdict than that it fits.
    pub fn differs(&self) -> bool
        ensures { result ≡ self.now.differs }
    {
        self.differs
    }

    // Writes the token of a command.
    fn sign(&self, signing: &Signing, text: &mut Text)
        requires key { IsSome self.now.desk.key }
        requires empty { text.old.items ≡ [] }
        ensures { Does self.now (DeskLine.Sign signing.now) self.now text.new.items }
    {
        let token = self.desk.sign(signing.p1, signing.p2, &signing.before);
        push_token_line(&token, text);
    }

    // Judges a receipt, and writes the verdict.
    fn judge(&mut self, receipted: &Receipted, text: &mut Text)
        requires key { IsSome self.old.desk.key }
        requires empty { text.old.items ≡ [] }
        ensures { Does self.old (DeskLine.Receipt receipted.now) self.new text.new.items }
    {
        let verdict = judge_receipt(&mut self.desk, receipted);
        if !matches!(verdict, Verdict::Fits(_)) {
            self.differs = true;
        }
        push_verdict_line(&verdict, text);
    }

    // Does what a line says. It has no form where it can't be said now.
    fn obey(&mut self, line: &DeskLine, text: &mut Text) -> Taking
        requires empty { text.old.items ≡ [] }
        ensures obeyed { Obeys self.old line.now self.new text.new.items result }
    {
        match line {
            DeskLine::Nothing => Taking::Taken,
            DeskLine::Key(key) => {
                self.desk.put_key(*key);
                Taking::Taken
            }
            DeskLine::Unique(bytes) => {
                self.desk.set_unique(bytes);
                Taking::Taken
            }
            DeskLine::From(number) => {
                self.desk.start_from(*number);
                Taking::Taken
            }
            DeskLine::Sign(signing) => {
                if !self.desk.has_key() {
                    return Taking::NoForm;
                }
                self.sign(signing, text);
                Taking::Taken
            }
            DeskLine::Receipt(receipted) => {
                if !self.desk.has_key() {
                    return Taking::NoForm;
                }
                self.judge(receipted, text);
                Taking::Taken
            }
        }
    }
}

impl LineTaker for Audit {
    ghost does = { desk_taker };

    fn take_line(&mut self, line: &[u8], text: &mut Text) -> Taking {
        text.clear();
        match DeskLine::read(line) {
            Some(line) => self.obey(&line, text),
            None => Taking::NoForm,
        }
    }
}
