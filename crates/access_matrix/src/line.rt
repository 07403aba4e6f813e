//! The line of a right.

ghost use Rattle.std.specs.Prelude.{◌≡◌, ◌≤◌, ◌+◌, ◌++◌, []};
ghost use Rattle.access_matrix.specs.Prelude.{aid_word, array_vec_len, is_about_locked, line_as, names_of, names_room, verb_as};

use crate::act::Act;
use crate::deed::{Deed, Right};
use arrayvec::ArrayVec;
use card_types::{Aid, Tables, in_slot};
use line_text::{push_hex, push_word};

/// How many bytes a line has room for. None has more than 105.
pub const LINE_ROOM: usize = 160;

/// Whether the act is about an entry that is locked.
pub fn is_locked(tables: &Tables, act: &Act) -> bool
    ensures { result ≡ is_about_locked tables.now act.now }
{
    match *act {
        Act::Lock(slot) => match in_slot(&tables.entries, slot) {
            Some(entry) => entry.life.locked,
            None => false,
        },
        _ => false,
    }
}

// What is done, and a space.
fn push_verb(deed: &Deed, locked: bool, line: &mut ArrayVec<u8, LINE_ROOM>)
    requires empty { line.old.items ≡ [] }
    ensures written { line.new.items ≡ verb_as locked deed.now }
    ensures size { array_vec_len line.new + names_room deed.now ≤ 72 }
{
    match deed {
        Deed::Delete(_) => push_word(b"delete ", line),
        Deed::Related(_) => push_word(b"related ", line),
        Deed::Lock(_) => {
            if locked {
                push_word(b"unlock ", line);
            } else {
                push_word(b"lock ", line);
            }
        }
        Deed::Move(_, _) => push_word(b"move ", line),
        Deed::Install(_) => push_word(b"install ", line),
        Deed::Load => push_word(b"load ", line),
    }
}

// A space and an AID.
fn push_name(aid: &Aid, line: &mut ArrayVec<u8, LINE_ROOM>)
    requires room { array_vec_len line.old + 33 ≤ 104 }
    ensures written { line.new.items ≡ line.old.items ++ aid_word aid.now }
    ensures size { array_vec_len line.new ≤ array_vec_len line.old + 33 }
{
    push_word(b" ", line);
    push_hex(aid.as_bytes(), line);
}

// What the deed is about, and the security domain that it goes to.
fn push_names(deed: &Deed, line: &mut ArrayVec<u8, LINE_ROOM>)
    requires room { array_vec_len line.old + names_room deed.now ≤ 104 }
    ensures written { line.new.items ≡ line.old.items ++ names_of deed.now }
    ensures size { array_vec_len line.new ≤ 104 }
{
    match deed {
        Deed::Delete(aid) | Deed::Lock(aid) => push_name(aid, line),
        Deed::Related(file) | Deed::Install(file) => push_name(file, line),
        Deed::Move(aid, domain) => {
            push_name(aid, line);
            push_name(domain, line);
        }
        Deed::Load => {}
    }
}

/// Writes the line of a right to an empty line. `locked` says whether an entry that is locked or unlocked is locked now.
pub fn push_right(right: &Right, locked: bool, line: &mut ArrayVec<u8, LINE_ROOM>)
    requires empty { line.old.items ≡ [] }
    ensures written { line.new.items ≡ line_as locked right.now }
    ensures size { array_vec_len line.new ≤ 105 }
{
    push_verb(&right.deed, locked, line);
    push_hex(right.domain.as_bytes(), line);
    push_names(&right.deed, line);
    push_word(b"\n", line);
}
