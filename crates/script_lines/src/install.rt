//! Applications to install (GlobalPlatform Card Specification 2.3.1, 11.5).

ghost use Rattle.std.specs.Prelude.{◌≡◌, ◌≤◌, ℕ, List, length, flat_map};
ghost use Rattle.script_lines.specs.Prelude.{Reads, SaysInstall, SpellsByte, SpellsParameters, SpellsPrivileges, command_of_plain, install_command, install_p1, installing, remaining_words, with_length};

use crate::plain::Plain;
use crate::tokens::Tokens;
use crate::values::{aid, byte, bytes};
use crate::words::Words;
use arrayvec::ArrayVec;
use card_types::Aid;
use tokens_receipts::{DataField, five_fields, push_field};

/// An application to install: whether it is made selectable too, its Executable Load File and Module,
/// its AID, its privileges in one byte or three, and its parameters.
#[derive(Drop)]
pub struct Installation {
    pub selectable: bool,
    pub file: Aid,
    pub module: Aid,
    pub aid: Aid,
    pub privileges: ArrayVec<u8, 3>,
    pub parameters: ArrayVec<u8, 127>,
}

// P1 for install, or for install and make selectable.
fn p1_of(selectable: bool) -> u8
    ensures { result ≡ install_p1 selectable }
{
    if selectable { 0x0c } else { 0x04 }
}

impl Installation {
    /// INSTALL for install, or for install and make selectable.
    #[inline(never)]
    pub fn command(&self, tokens: &Tokens) -> Plain
        ensures { command_of_plain result ≡ installing tokens.now self.now }
    {
        let fields = five_fields(
            self.file.as_bytes(),
            self.module.as_bytes(),
            self.aid.as_bytes(),
            &self.privileges,
            &self.parameters,
        );
        install(tokens, p1_of(self.selectable), fields)
    }
}

/// INSTALL of the fields that `body` holds, each after its length, with its token.
pub fn install(tokens: &Tokens, p1: u8, body: DataField) -> Plain
    requires { length body.items ≤ 238 }
    ensures { (fields : List (List ℕ)) → body.items ≡ flat_map with_length fields → command_of_plain result ≡ install_command tokens.now p1 fields }
{
    let mut body = body;
    match tokens.token(p1, 0x00, &body) {
        Some(token) => push_field(&token, &mut body),
        None => push_field(&[], &mut body),
    }
    Plain {
        ins: 0xe6,
        p1,
        p2: 0x00,
        body,
    }
}

// Whether P1 makes the application selectable.
#[tactic(auto, unfolding(crate::specs::Words::SpellsByte))]
fn selectable(word: &[u8]) -> Option<bool>
    ensures { Reads (λ selectable. SpellsByte word.now (install_p1 selectable)) result }
{
    match byte(word)? {
        0x04 => Some(false),
        0x0c => Some(true),
        _ => None,
    }
}

#[tactic(auto, unfolding(crate::specs::Install::SpellsPrivileges, crate::specs::Words::SpellsUpTo))]
fn privileges(word: &[u8]) -> Option<ArrayVec<u8, 3>>
    ensures { Reads (λ privileges. SpellsPrivileges word.now privileges.items) result }
{
    let privileges: ArrayVec<u8, 3> = bytes(word)?;
    if privileges.len() == 2 {
        return None;
    }
    Some(privileges)
}

#[tactic(auto, unfolding(crate::specs::Install::SpellsParameters))]
fn parameters(word: &[u8]) -> Option<ArrayVec<u8, 127>>
    ensures { Reads (λ parameters. SpellsParameters word.now parameters.items) result }
{
    if word == b"-".as_slice() {
        return Some(ArrayVec::new());
    }
    bytes(word)
}

/// Reads `P1 FILE MODULE AID PRIV PARAMS`, the words after `install`.
#[inline(never)]
pub fn read(mut words: Words<'_>) -> Option<Installation>
    ensures { Reads (SaysInstall (remaining_words words.entry)) result }
{
    let selectable = selectable(words.take()?)?;
    let file = aid(words.take()?)?;
    let module = aid(words.take()?)?;
    let aid = aid(words.take()?)?;
    let privileges = privileges(words.take()?)?;
    let parameters = parameters(words.last()?)?;
    Some(Installation {
        selectable,
        file,
        module,
        aid,
        privileges,
        parameters,
    })
}
