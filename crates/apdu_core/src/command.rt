//! Command APDUs (ISO/IEC 7816-3:2006, 12.1).
ghost use Rattle.std.specs.Prelude.{◌≡◌, ℕ, ◌<◌, ◌≤◌, List, ◌++◌, length, Option, All, IfOk, OnErr};
ghost use Rattle.apdu_core.specs.Apdu.{Apdu, Short, after_header, apdu_of};
ghost use Rattle.arrayvec.specs.ArrayVec.{array_vec_len};

use crate::NotShort;
use arrayvec::ArrayVec;

/// A command APDU, whose body lies in the bytes that it was read from.
#[derive(Clone, Copy, Debug, PartialEq, Eq)]
pub struct Command<'a> {
    pub class: u8,
    pub ins: u8,
    pub p1: u8,
    pub p2: u8,
    pub body: &'a [u8],

    /// The Le byte, where there is one. A byte 00 asks for 256 bytes.
    pub le: Option<u8>,
}

impl Command<'_> {
    /// Reads a whole command.
    pub fn read(bytes: &[u8]) -> Result<Command<'_>, NotShort>
        ensures ok { IfOk result (λ c. Short (apdu_of c) bytes.now) }
        ensures refused { OnErr result ((c : Apdu) → Short c bytes.now → ⊥) }
        ensures short { IfOk result (λ c. length c.body.now ≤ 255) }
    {
        let [class, ins, p1, p2, rest @ ..] = bytes else {
            return Err(NotShort);
        };
        let (body, le) = split_fields(rest)?;
        Ok(Command {
            class: *class,
            ins: *ins,
            p1: *p1,
            p2: *p2,
            body,
            le,
        })
    }

    /// Replaces what `out` holds by the command's bytes. A body that is empty has no Lc.
    pub fn write(&self, out: &mut ArrayVec<u8, 261>)
        requires { length self.now.body.now ≤ 255 }
        ensures spelled { Short (apdu_of self.now) out.new.items }
    {
        out.clear();
        out.push(self.class);
        out.push(self.ins);
        out.push(self.p1);
        out.push(self.p2);
        push_fields(self.body, self.le, out);
    }
}

/// Appends what follows the header: Lc and the body, where there is a body, and Le, where there is one.
fn push_fields(body: &[u8], le: Option<u8>, out: &mut ArrayVec<u8, 261>)
    requires short { length body.now ≤ 255 }
    requires room { array_vec_len out.old ≤ 4 }
    ensures appended { out.new.items ≡ out.old.items ++ after_header body.now le }
    ensures octets { All (λ b. b < 256) (after_header body.now le) }
{
    if !body.is_empty() {
        out.push(body.len() as u8);
        out.try_extend_from_slice(body).unwrap();
    }
    if let Some(le) = le {
        out.push(le);
    }
}

/// The body and Le, from what follows the header.
fn split_fields(fields: &[u8]) -> Result<(&[u8], Option<u8>), NotShort>
    ensures ok { IfOk result (λ f. fields.now ≡ after_header f.0.now f.1) }
    ensures refused { OnErr result ((body : List ℕ) (le : Option ℕ) → fields.now ≡ after_header body le → ⊥) }
    ensures short { IfOk result (λ f. length f.0.now ≤ 255) }
{
    match fields {
        [] => Ok((fields, None)),
        [le] => Ok((&[], Some(*le))),
        [0, ..] => Err(NotShort),
        [count, rest @ ..] => {
            let count = usize::from(*count);
            if rest.len() == count {
                Ok((rest, None))
            } else if rest.len() == count + 1 {
                Ok((&rest[..count], Some(rest[count])))
            } else {
                Err(NotShort)
            }
        }
    }
}
