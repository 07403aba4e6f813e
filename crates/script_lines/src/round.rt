//! The lines of a round of the workload (this profile's own).

ghost use Rattle.std.specs.Prelude.{◌≡◌, ◌+◌, ◌<◌, ◌≤◌, ◌++◌, decimal, codes, slice_get};
ghost use Rattle.std.specs.Int.{to_be_bytes};
ghost use Rattle.std.specs.Option.{option_map};
ghost use Rattle.script_lines.specs.Prelude.{application_of, array_vec_len, challenge_of, digits_of, lines_of, round_file};

use arrayvec::ArrayVec;
use itoa::Buffer;
use line_text::{push_hex, push_word};

/// A line of the workload.
pub type MillLine = ArrayVec<u8, 64>;

/// What a round of the workload chooses: the code of a security level, a host challenge, the number in its AIDs, and
/// how many bytes of which value its file holds.
#[derive(Clone, Copy)]
pub struct Round {
    pub level: u8,
    pub challenge: u64,
    pub number: u32,
    pub count: u8,
    pub byte: u8,
}

// Appends a number.
fn push_number(number: u8, line: &mut MillLine)
    requires { array_vec_len line.old + 3 ≤ 64 }
    ensures text { line.new.items ≡ line.old.items ++ decimal number }
    ensures len { array_vec_len line.new ≤ array_vec_len line.old + 3 }
{
    let mut buffer = Buffer::new();
    push_word(buffer.format(number).as_bytes(), line);
}

impl Round {
    // Appends the AID of the file, `f0X01`.
    fn push_file(&self, line: &mut MillLine)
        requires { array_vec_len line.old + 12 ≤ 64 }
        ensures text { line.new.items ≡ line.old.items ++ round_file self.now }
        ensures len { array_vec_len line.new ≡ array_vec_len line.old + 12 }
    {
        push_word(b"f0", line);
        push_hex(&self.number.to_be_bytes(), line);
        push_word(b"01", line);
    }

    // Appends the AID of the module and of the application, `f0X02`.
    fn push_application(&self, line: &mut MillLine)
        requires { array_vec_len line.old + 12 ≤ 64 }
        ensures text { line.new.items ≡ line.old.items ++ application_of self.now }
        ensures len { array_vec_len line.new ≡ array_vec_len line.old + 12 }
    {
        push_word(b"f0", line);
        push_hex(&self.number.to_be_bytes(), line);
        push_word(b"02", line);
    }

    fn push_open(&self, line: &mut MillLine)
        requires { array_vec_len line.old ≡ 0 }
        ensures { line.new.items ≡ line.old.items ++ codes "open 00 " ++ digits_of self.now.level ++ codes " " ++ challenge_of self.now }
    {
        push_word(b"open 00 ", line);
        push_hex(&[self.level], line);
        push_word(b" ", line);
        push_hex(&self.challenge.to_be_bytes(), line);
    }

    fn push_load(&self, line: &mut MillLine)
        requires { array_vec_len line.old ≡ 0 }
        ensures { line.new.items ≡ line.old.items ++ codes "load " ++ round_file self.now ++ codes " - none fill " ++ decimal self.now.count ++ codes " " ++ digits_of self.now.byte }
    {
        push_word(b"load ", line);
        self.push_file(line);
        push_word(b" - none fill ", line);
        push_number(self.count, line);
        push_word(b" ", line);
        push_hex(&[self.byte], line);
    }

    fn push_install(&self, line: &mut MillLine)
        requires { array_vec_len line.old ≡ 0 }
        ensures { line.new.items ≡ line.old.items ++ codes "install 04 " ++ round_file self.now ++ codes " " ++ application_of self.now ++ codes " " ++ application_of self.now ++ codes " 00 c900" }
    {
        push_word(b"install 04 ", line);
        self.push_file(line);
        push_word(b" ", line);
        self.push_application(line);
        push_word(b" ", line);
        self.push_application(line);
        push_word(b" 00 c900", line);
    }

    /// The line at a place of the round, where it has so many.
    pub fn line(&self, at: usize) -> Option<MillLine>
        ensures { slice_get (lines_of self.now) at ≡ option_map (λ line. line.items) result }
    {
        let mut line = ArrayVec::new();
        match at {
            0 => push_word(b"reset", &mut line),
            1 => self.push_open(&mut line),
            2 => {
                push_word(b"store 4508", &mut line);
                push_hex(&self.challenge.to_be_bytes(), &mut line);
            }
            3 => self.push_load(&mut line),
            4 => self.push_install(&mut line),
            5 => {
                push_word(b"selectable ", &mut line);
                self.push_application(&mut line);
            }
            6 => push_word(b"list 40", &mut line),
            7 => {
                push_word(b"life 40 80 ", &mut line);
                self.push_application(&mut line);
            }
            8 => {
                push_word(b"life 40 00 ", &mut line);
                self.push_application(&mut line);
            }
            9 => {
                push_word(b"delete ", &mut line);
                self.push_file(&mut line);
                push_word(b" 80", &mut line);
            }
            _ => return None,
        }
        Some(line)
    }
}
