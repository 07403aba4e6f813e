//! The commands of a CAP file, as lines of a script.

ghost use Rattle.std.specs.Prelude.{◌≡◌, ◌≤◌, ◌<◌, ◌+◌, ◌-◌, ℕ, List, MatchOption, length, slice_get};
ghost use Rattle.apdu_core.specs.Apdu.{apdu_of};
ghost use Rattle.arrayvec.specs.ArrayVec.{array_vec_len};
ghost use Rattle.card_types.specs.Aid.{IsAid};
ghost use Rattle.cap_pack.specs.Held.{IsCap, pack_of};
ghost use Rattle.cap_pack.specs.Pack.{block_at, installing_applet, installing_file, send_line};
ghost use Rattle.cap_pack.specs.declared.limit.TheConstants.{CAP_LIMIT};
ghost use Rattle.script_tool.specs.Load.{block_element};

use crate::applets::applet;
use crate::blocks;
use crate::cap::Cap;
use apdu_core::Command;
use arrayvec::ArrayVec;
use card_types::Aid;
use line_text::{push_hex, push_word};
use script_tool::{Installation, Tokens, install_for_load, load_block};
use sha2::{Digest, Sha256};

/// How many bytes a line has room for, with its newline.
pub const LINE_ROOM: usize = 522;

// Replaces what `out` holds by the line of a command.
fn write_send(command: &Command<'_>, out: &mut ArrayVec<u8, LINE_ROOM>)
    requires short { length command.now.body.now ≤ 239 }
    ensures line { out.new.items ≡ send_line (apdu_of command.now) }
    ensures size { array_vec_len out.new ≤ 521 }
{
    let mut bytes = ArrayVec::new();
    command.write(&mut bytes);
    out.clear();
    push_word(b"send ", out);
    push_hex(&bytes, out);
}

impl Cap<'_> {
    // The line of INSTALL for load.
    fn write_install(&self, out: &mut ArrayVec<u8, LINE_ROOM>)
        requires { IsAid self.now.package }
        ensures line { out.new.items ≡ send_line (installing_file self.now.package self.now.bytes.now) }
        ensures size { array_vec_len out.new ≤ 521 }
    {
        let hash = Sha256::digest(self.bytes);
        let install = install_for_load(&Tokens::Absent, &self.package, &None, &hash);
        write_send(&install.command(), out);
    }

    // The line of LOAD of the block with this number, of so many blocks.
    fn write_block(&self, number: usize, count: usize, out: &mut ArrayVec<u8, LINE_ROOM>)
        requires short { length self.now.bytes.now ≤ CAP_LIMIT }
        requires within { number < count }
        requires few { count ≤ 138 }
        ensures line { out.new.items ≡ send_line (block_at (count - (number + 1)) number (block_element self.now.bytes.now)) }
        ensures size { array_vec_len out.new ≤ 521 }
    {
        let block = blocks::block(self.bytes, number);
        write_send(&load_block(number + 1 == count, number as u8, &block), out);
    }

    // The line of INSTALL for install and make selectable of an applet.
    fn write_applet(&self, applet: Aid, out: &mut ArrayVec<u8, LINE_ROOM>)
        requires file { IsAid self.now.package }
        requires applet { IsAid applet }
        ensures line { out.new.items ≡ send_line (installing_applet self.now.package applet) }
        ensures size { array_vec_len out.new ≤ 521 }
    {
        let mut privileges = ArrayVec::new();
        privileges.push(0x00);
        let mut parameters = ArrayVec::new();
        parameters.push(0xc9);
        parameters.push(0x00);
        let installation = Installation {
            selectable: true,
            file: self.package,
            module: applet,
            aid: applet,
            privileges,
            parameters,
        };
        write_send(&installation.command(&Tokens::Absent).command(), out);
    }

    /// How many commands load it and install its applets.
    pub fn lines(&self) -> u32
        requires { (aids : List (List ℕ)) × IsCap self.now aids }
        ensures { (aids : List (List ℕ)) → IsCap self.now aids → result ≡ length (pack_of self.now aids) }
    {
        let count = self.count;
        1 + blocks::count(self.bytes) as u32 + u32::from(count)
    }

    /// Replaces what `out` holds by the line that sends the command with this index, without a newline.
    pub fn line(&self, index: u32, out: &mut ArrayVec<u8, LINE_ROOM>)
        requires { (aids : List (List ℕ)) × IsCap self.now aids × (index < length (pack_of self.now aids)) }
        ensures line { (aids : List (List ℕ)) → IsCap self.now aids → MatchOption (slice_get (pack_of self.now aids) index) ⊥ (λ command. out.new.items ≡ send_line command) }
        ensures size { array_vec_len out.new ≤ 521 }
    {
        let index = index as usize;
        let count = blocks::count(self.bytes);
        if index == 0 {
            self.write_install(out);
        } else if index <= count {
            self.write_block(index - 1, count, out);
        } else {
            let applet = applet(self.applets, index - 1 - count).unwrap();
            self.write_applet(applet, out);
        }
    }
}
