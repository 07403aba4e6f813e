//! A line that is given to a card.

ghost use Rattle.std.specs.Prelude.{◌≡◌, ◌≢◌, ◌≤◌, true, length};
ghost use Rattle.gp_tool.specs.Prelude.{GivesCard, Rose};

use crate::command::give_command;
use crate::form::{Form, read_form};
use crate::workspace::Workspace;
use card_core::Card;
use flash_core::{Flash, FlashFailed};
use io_edge::LINE_LIMIT;
use policy_rules::Rule;

/// What came of a line that is given to a card.
#[derive(Clone, Copy)]
pub enum Given {
    /// It is no line for a card.
    NoForm,
    /// It gives the card nothing.
    Nothing,
    /// The card's power was taken away and given back.
    Reset,
    /// The card answered its command, whose reply is in the workspace, with the rule that refused it.
    Answered(Option<Rule>),
    /// The device failed in its command.
    FlashFailed,
}

/// Gives a line to the card. `done` counts the commands that the card has answered, up to the greatest number that it holds.
pub fn give_line<F: Flash>(
    line: &[u8],
    card: &mut Card<F>,
    done: &mut u32,
    space: &mut Workspace,
) -> Given
    requires line { length line.now ≤ LINE_LIMIT }
    requires live { card.old.live ≡ true }
    ensures given { GivesCard line.now F.Flash card.old card.new done.old done.new space.old.reply.items space.new.reply.items result }
    ensures has_reply { space.new.has_reply ≡ space.old.has_reply }
    ensures live { result ≢ Given.FlashFailed → card.new.live ≡ true }
    ensures later { F.faults card.old.flash ≤ F.faults card.new.flash }
    ensures cause { result ≡ Given.FlashFailed → Rose (F.faults card.old.flash) (F.faults card.new.flash) }
{
    match read_form(line, &mut space.command) {
        None => Given::NoForm,
        Some(Form::Nothing) => Given::Nothing,
        Some(Form::Reset) => {
            card.reset();
            Given::Reset
        }
        Some(Form::Command(count)) => {
            let command = &space.command[..count];
            match give_command(card, done, command, &mut space.reply) {
                Ok(rule) => Given::Answered(rule),
                Err(FlashFailed) => Given::FlashFailed,
            }
        }
    }
}
