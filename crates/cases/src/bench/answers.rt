//! What a case answers of the device, the streams and the registry.

use crate::bench::{Bench, Power, place_of, write_line};
use crate::device::Device;
use crate::script::Player;
use crate::tool::{Streams, call};
use arrayvec::ArrayVec;
use case_cards::{CaseError, Image};
use script_tool::Mill;

/// How many lines a round of a workload has.
const ROUND_LINES: u64 = 10;

impl<'a> Bench<'a> {
    pub(super) fn write_counts(&self, out: &mut Vec<u8>) -> Result<(), CaseError> {
        let called = self.called.as_ref().ok_or(CaseError::NoForm)?;
        let text = format!(in self.alloc;
            "done {}, flushes {}, written {}, handed on {}",
            called.done,
            called.sink.flushes(),
            called.sink.written().len(),
            called.sink.handed_on().len()
        )?;
        write_line(out, text.as_bytes())
    }

    // The host and the card, which is on.
    fn player(&self) -> Result<&Player<Device<'a>>, CaseError> {
        match &self.power {
            Power::On(player) => Ok(player),
            _ => Err(CaseError::NoForm),
        }
    }

    pub(super) fn write_rule(&self, out: &mut Vec<u8>) -> Result<(), CaseError> {
        write_line(out, self.player()?.rule_name().as_bytes())
    }

    pub(super) fn write_sent(&self, out: &mut Vec<u8>) -> Result<(), CaseError> {
        let digits = hex::encode(self.alloc, self.player()?.sent())?;
        write_line(out, digits.as_bytes())
    }

    pub(super) fn write_calls(&self, out: &mut Vec<u8>) -> Result<(), CaseError> {
        let calls = self.calls.get();
        let text = format!(in self.alloc;
            "reads {}, writes {}, syncs {}",
            calls.reads, calls.writes, calls.syncs
        )?;
        write_line(out, text.as_bytes())
    }

    // Bytes of the pages, as they are read.
    pub(super) fn write_bytes(
        &mut self,
        page: u32,
        place: u32,
        count: u32,
        out: &mut Vec<u8>,
    ) -> Result<(), CaseError> {
        let flash = self.take_flash()?;
        let image = Image::of(self.alloc, &flash)?;
        self.power = Power::Off(flash);
        let place = place_of(page, place) as usize;
        let digits = hex::encode(self.alloc, &image.bytes(self.alloc, place, count as usize)?)?;
        write_line(out, digits.as_bytes())
    }

    // How many lines of the registry begin with a word.
    pub(super) fn write_count(&mut self, word: &[u8], out: &mut Vec<u8>) -> Result<(), CaseError> {
        let device = self.take_device()?;
        let streams = Streams::ample(self.alloc);
        let (called, flash) = call(self.alloc, Some("show"), b"", &streams, device)?;
        self.power = Power::Off(flash);
        let count = count_lines(called.sink.written(), word);
        let text = format!(in self.alloc; "{count}")?;
        write_line(out, text.as_bytes())
    }
}

// The lines of the workload of a seed, and one more if it has more than it should.
pub(super) fn write_workload(seed: u64, rounds: u32, out: &mut Vec<u8>) -> Result<(), CaseError> {
    let mut mill = Mill::new(seed, rounds);
    let mut line = ArrayVec::new();
    for _ in 0..=u64::from(rounds) * ROUND_LINES {
        if !mill.next_line(&mut line) {
            break;
        }
        write_line(out, &line)?;
    }
    Ok(())
}

// How many lines begin with this word and a space.
fn count_lines(text: &[u8], word: &[u8]) -> usize {
    let mut count: usize = 0;
    let mut rest = text;
    for _ in 0..text.len() {
        let Some(at) = rest.iter().position(|byte| *byte == b'\n') else {
            break;
        };
        if let [b' ', ..] = rest[..at].strip_prefix(word).unwrap_or(b"") {
            count = count.saturating_add(1);
        }
        rest = &rest[at + 1..];
    }
    count
}
