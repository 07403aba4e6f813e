//! A case: a device, a card on it, and what its lines do to them.

mod answers;

ghost use Rattle.std.specs.Prelude.{◌≡◌, ◌+◌, ◌*◌, ◌++◌, ◌∷◌, [], ℕ, List, codes, map, replicate, take, Ok, Err, OnOk, OnErr, IfOk};
ghost use Rattle.std.specs.Borrow.{Bor};
ghost use Rattle.cases.specs.Bench.{IsLaidOut, IsNew, LaysIn};
ghost use Rattle.case_cards.specs.Image.{bytes_of_pages, with_bytes};
ghost use Rattle.case_cards.specs.Layout.{nothing_in};
ghost use Rattle.cases.specs.declared.bench.Power.TheVariants.{Blank, Laid};
ghost use Rattle.case_cards.specs.declared.case_error.CaseError.TheVariants.{NoForm};
ghost use Rattle.cases.specs.declared.line.Line.TheVariants.{Nothing, Case, Thing, Fuse, Once, Input, Later, Change, Image as ImageLine};
ghost use Rattle.flash_core.specs.Memory.{medium};
ghost use Rattle.flash_core.specs.declared.page.TheConstants.{PAGES};

use crate::act::Act;
use crate::bench::answers::write_workload;
use crate::counted::Calls;
use crate::device::{Device, Faults, failing, memory};
use crate::line::{Line, StreamLine, Sweep};
use crate::script::Player;
use crate::sweep::sweep;
use crate::tool::{Called, Streams, call};
use case_cards::{CaseError, Image, Layout, number};
use flash_core::MemFlash;
use script_tool::words::Words;
use std::alloc::Global;
use std::cell::Cell;
use std::mem;

/// What the device is.
#[derive(Drop)]
enum Power<'a> {
    /// Its pages are zeros.
    Blank,

    /// Its pages are being laid out.
    Laid(Layout),
    Off(MemFlash),
    On(Player<Device<'a>>),
}

/// A case, as far as its lines have made it.
#[derive(Drop)]
pub struct Bench<'a> {
    alloc: Global,
    calls: &'a Cell<Calls>,
    power: Power<'a>,

    /// Pages that were remembered.
    kept: Option<Image>,

    /// What fails when the device is used next.
    faults: Faults,
    streams: Streams,
    input: Vec<u8>,

    /// The script of sweeps.
    script: Vec<Vec<u8>>,

    /// The changes that are committed together, in the place of a script.
    changes: Vec<Vec<u8>>,
    called: Option<Called>,
}

impl<'a> Bench<'a> {
    /// A device of zeros. How many calls it takes is kept in `calls`.
    pub fn new(alloc: Global, calls: &'a Cell<Calls>) -> Bench<'a>
        ensures { IsNew result }
    {
        Bench {
            alloc,
            calls,
            power: Power::Blank,
            kept: None,
            faults: Faults::NONE,
            streams: Streams::ample(alloc),
            input: Vec::new(alloc),
            script: Vec::new(alloc),
            changes: Vec::new(alloc),
            called: None,
        }
    }

    /// Does a line, and writes what it answers.
    pub fn act(&mut self, line: &Line<'_>, out: &mut Vec<u8>) -> Result<(), CaseError>
        ensures nothing { line.now ≡ Nothing → (result ≡ Ok tt) × (self.new ≡ self.old) × (out.new ≡ out.old) }
        ensures case { (name : Bor (List ℕ)) → line.now ≡ Case name → OnOk result (IsNew self.new × (out.new.items ≡ out.old.items ++ codes "case " ++ name.now ++ 10 ∷ [])) }
        ensures thing { (kind words : Bor (List ℕ)) → line.now ≡ Thing kind words → OnOk result (LaysIn kind.now words.now self.old.power self.new.power) }
        ensures fuse { (call : ℕ) → line.now ≡ Fuse call → (result ≡ Ok tt) × (self.new ≡ record self.old { faults = record self.old.faults { fuse = call } }) }
        ensures once { (call : ℕ) → line.now ≡ Once call → (result ≡ Ok tt) × (self.new ≡ record self.old { faults = record self.old.faults { once = call } }) }
        ensures input { (text : Bor (List ℕ)) → line.now ≡ Input text → OnOk result (self.new.input.items ≡ self.old.input.items ++ text.now ++ 10 ∷ []) }
        ensures later { (text : Bor (List ℕ)) → line.now ≡ Later text → OnOk result (map (λ l. l.items) self.new.script.items ≡ map (λ l. l.items) self.old.script.items ++ text.now ∷ []) }
        ensures change { (text : Bor (List ℕ)) → line.now ≡ Change text → OnOk result (map (λ l. l.items) self.new.changes.items ≡ map (λ l. l.items) self.old.changes.items ++ text.now ∷ []) }
        ensures image { (path : Bor (List ℕ)) → line.now ≡ ImageLine path → result ≡ Err NoForm }
    {
        match line {
            Line::Nothing => Ok(()),
            Line::Case(name) => {
                *self = Bench::new(self.alloc, self.calls);
                out.extend_from_slice(b"case ")?;
                write_line(out, name)
            }
            Line::Page {
                number,
                place,
                digits,
                times,
            } => self.put(*number, *place, digits, *times),
            Line::Thing { kind, words } => self.lay(kind, words),
            Line::Format => self.format(),
            Line::Keep => self.keep(),
            Line::Again => self.again(),
            Line::Fuse(call) => {
                self.faults.fuse = u64::from(*call);
                Ok(())
            }
            Line::Once(call) => {
                self.faults.once = u64::from(*call);
                Ok(())
            }
            Line::PowerOn => self.power_on(out),
            Line::PowerOff => self.power_off(),
            Line::Cut(seed) => self.cut(*seed),
            _ => self.play(line, out),
        }
    }

    // Does a line that gives input to a card, or asks what came of it.
    fn play(&mut self, line: &Line<'_>, out: &mut Vec<u8>) -> Result<(), CaseError>
        ensures input { (text : Bor (List ℕ)) → line.now ≡ Input text → OnOk result (self.new.input.items ≡ self.old.input.items ++ text.now ++ 10 ∷ []) }
        ensures later { (text : Bor (List ℕ)) → line.now ≡ Later text → OnOk result (map (λ l. l.items) self.new.script.items ≡ map (λ l. l.items) self.old.script.items ++ text.now ∷ []) }
        ensures change { (text : Bor (List ℕ)) → line.now ≡ Change text → OnOk result (map (λ l. l.items) self.new.changes.items ≡ map (λ l. l.items) self.old.changes.items ++ text.now ∷ []) }
        ensures image { (path : Bor (List ℕ)) → line.now ≡ ImageLine path → result ≡ Err NoForm }
    {
        match line {
            Line::Input(text) => {
                self.input.extend_from_slice(text)?;
                Ok(self.input.push(b'\n')?)
            }
            Line::Bytes { digits, times } => {
                let bytes = decode(self.alloc, digits)?;
                for _ in 0..*times {
                    self.input.extend_from_slice(&bytes)?;
                }
                Ok(())
            }
            Line::Stream(line) => self.set_stream(line),
            Line::Gp(words) => self.gp(*words, out),
            Line::Script(line) => self.step(line, out),
            Line::Later(line) => Ok(self.script.push(Vec::from_slice(self.alloc, line)?)?),
            Line::Change(line) => Ok(self.changes.push(Vec::from_slice(self.alloc, line)?)?),
            Line::Commit => self.commit(out),
            Line::Sweep(kind) => self.sweep(*kind, out),
            Line::Counts => self.write_counts(out),
            Line::Sent => self.write_sent(out),
            Line::Rule => self.write_rule(out),
            Line::Calls => self.write_calls(out),
            Line::Count(word) => self.write_count(word, out),
            Line::Mill { seed, rounds } => write_workload(*seed, *rounds, out),
            Line::Look {
                number,
                place,
                count,
            } => self.write_bytes(*number, *place, *count, out),
            _ => Err(CaseError::NoForm),
        }
    }

    // Takes the device, with its power off.
    fn take_flash(&mut self) -> Result<MemFlash, CaseError> {
        match mem::replace(&mut self.power, Power::Blank) {
            Power::Blank => Image::zeros(self.alloc)?.device(self.alloc),
            Power::Laid(layout) => layout.image().device(self.alloc),
            Power::Off(flash) => Ok(flash),
            Power::On(player) => Ok(memory(player.into_flash())),
        }
    }

    // Takes the device to use it, with the faults that are due.
    fn take_device(&mut self) -> Result<Device<'a>, CaseError> {
        let faults = mem::replace(&mut self.faults, Faults::NONE);
        self.calls.set(Calls::NONE);
        Ok(failing(self.take_flash()?, faults, self.calls))
    }

    // Takes the pages to lay out more in them.
    fn take_layout(&mut self) -> Result<Layout, CaseError>
        ensures pages { IfOk result (IsLaidOut self.old.power) }
        ensures kept { OnOk result (self.new ≡ record self.old { power = Blank }) }
    {
        match mem::replace(&mut self.power, Power::Blank) {
            Power::Blank => Ok(Layout::of(self.alloc, Image::zeros(self.alloc)?)),
            Power::Laid(layout) => Ok(layout),
            Power::Off(flash) => self.layout_of(&flash),
            Power::On(player) => self.layout_of(&memory(player.into_flash())),
        }
    }

    fn layout_of(&self, flash: &MemFlash) -> Result<Layout, CaseError>
        ensures { IfOk result (λ laid. laid ≡ nothing_in (bytes_of_pages (take PAGES (medium flash.now).seen))) }
    {
        Ok(Layout::of(self.alloc, Image::of(self.alloc, flash)?))
    }

    fn lay(&mut self, kind: &[u8], words: &[u8]) -> Result<(), CaseError>
        ensures { OnOk result (LaysIn kind.now words.now self.old.power self.new.power) }
    {
        let mut layout = self.take_layout()?;
        layout.lay(kind, words)?;
        self.power = Power::Laid(layout);
        Ok(())
    }

    fn put(&mut self, page: u32, place: u32, digits: &[u8], times: u32) -> Result<(), CaseError> {
        let bytes = decode(self.alloc, digits)?;
        let mut layout = self.take_layout()?;
        let mut at = place_of(page, place);
        for _ in 0..times {
            layout.put(at as usize, &bytes)?;
            at = at.saturating_add(bytes.len() as u64);
        }
        self.power = Power::Laid(layout);
        Ok(())
    }

    fn keep(&mut self) -> Result<(), CaseError> {
        let flash = self.take_flash()?;
        self.kept = Some(Image::of(self.alloc, &flash)?);
        self.power = Power::Off(flash);
        Ok(())
    }

    fn again(&mut self) -> Result<(), CaseError> {
        let kept = self.kept.as_ref().ok_or(CaseError::NoForm)?;
        self.power = Power::Off(kept.device(self.alloc)?);
        Ok(())
    }

    /// Takes these bytes for the pages, and zeros after them.
    pub fn lay_image(&mut self, pages: &[u8]) -> Result<(), CaseError>
        ensures ok { OnOk result (self.new ≡ record self.old { power = Laid (nothing_in (with_bytes (replicate (PAGES * 256) 0) 0 pages.now)) }) }
        ensures err { OnErr result (self.new ≡ self.old) }
    {
        let mut image = Image::zeros(self.alloc)?;
        image.put(0, pages)?;
        self.power = Power::Laid(Layout::of(self.alloc, image));
        Ok(())
    }

    fn format(&mut self) -> Result<(), CaseError> {
        let device = self.take_device()?;
        let streams = Streams::ample(self.alloc);
        let (called, flash) = call(self.alloc, Some("format"), b"", &streams, device)?;
        self.power = Power::Off(flash);
        if called.status == 0 {
            Ok(())
        } else {
            Err(CaseError::Device)
        }
    }

    fn power_on(&mut self, out: &mut Vec<u8>) -> Result<(), CaseError> {
        let device = self.take_device()?;
        match Player::over(self.alloc, device) {
            Ok(player) => {
                self.power = Power::On(player);
                Ok(())
            }
            Err(device) => {
                self.power = Power::Off(memory(device));
                write_line(out, b"no card")
            }
        }
    }

    fn power_off(&mut self) -> Result<(), CaseError> {
        let flash = self.take_flash()?;
        self.power = Power::Off(flash);
        Ok(())
    }

    fn cut(&mut self, seed: u64) -> Result<(), CaseError> {
        let mut flash = self.take_flash()?;
        flash.power_cut(seed);
        self.power = Power::Off(flash);
        Ok(())
    }

    fn set_stream(&mut self, line: &StreamLine<'_>) -> Result<(), CaseError> {
        match line {
            StreamLine::Piece(count) => self.streams.piece = *count as usize,
            StreamLine::RefusedReads(calls) => {
                self.streams.refused_reads = numbers(self.alloc, calls)?;
            }
            StreamLine::Room(bytes) => self.streams.room = *bytes as usize,
            StreamLine::RefusedWrites(calls) => {
                self.streams.refused_writes = numbers(self.alloc, calls)?;
            }
        }
        Ok(())
    }

    fn gp(&mut self, words: Option<&str>, out: &mut Vec<u8>) -> Result<(), CaseError> {
        let device = self.take_device()?;
        let streams = mem::replace(&mut self.streams, Streams::ample(self.alloc));
        let (called, flash) = call(self.alloc, words, &self.input, &streams, device)?;
        self.power = Power::Off(flash);
        self.input.clear();
        out.extend_from_slice(called.sink.written())?;
        let status = format!(in self.alloc; "status {}", called.status)?;
        self.called = Some(called);
        write_line(out, status.as_bytes())
    }

    fn step(&mut self, line: &[u8], out: &mut Vec<u8>) -> Result<(), CaseError> {
        if !matches!(self.power, Power::On(_)) {
            self.power_on(out)?;
        }
        let Power::On(player) = &mut self.power else {
            return Ok(());
        };
        self.calls.set(Calls::NONE);
        match player.step(line) {
            Some(text) if text.is_empty() => Ok(()),
            Some(text) => write_line(out, &text),
            None => write_line(out, b"no form"),
        }
    }

    fn commit(&mut self, out: &mut Vec<u8>) -> Result<(), CaseError> {
        let device = self.take_device()?;
        let played = Act::Commit(&self.changes).play(self.alloc, device)?;
        self.changes.clear();
        self.power = Power::Off(memory(played.flash));
        if played.is_whole {
            Ok(())
        } else {
            write_line(out, b"failed")
        }
    }

    fn sweep(&mut self, kind: Sweep, out: &mut Vec<u8>) -> Result<(), CaseError> {
        let flash = self.take_flash()?;
        let image = Image::of(self.alloc, &flash)?;
        self.power = Power::Off(flash);
        let act = if self.changes.is_empty() {
            Act::Script(&self.script)
        } else {
            Act::Commit(&self.changes)
        };
        let outcomes = sweep(self.alloc, kind, &image, &act)?;
        self.script.clear();
        self.changes.clear();
        write_line(out, outcomes.text()?.as_bytes())
    }
}

// A place of a page among all bytes.
fn place_of(page: u32, place: u32) -> u64
    ensures { result ≡ page * 256 + place }
{
    u64::from(page) * 256 + u64::from(place)
}

fn decode(alloc: Global, digits: &[u8]) -> Result<Vec<u8>, CaseError> {
    hex::decode(alloc, digits).map_err(|_| CaseError::NoForm)
}

// Decimal numbers, with a space between two.
fn numbers(alloc: Global, line: &[u8]) -> Result<Vec<u32>, CaseError> {
    let mut numbers = Vec::new(alloc);
    let mut words = Words::new(line);
    for _ in 0..line.len() {
        let Some(word) = words.take() else { break };
        numbers.push(number(word).ok_or(CaseError::NoForm)?)?;
    }
    Ok(numbers)
}

fn write_line(out: &mut Vec<u8>, text: &[u8]) -> Result<(), CaseError>
    ensures { OnOk result (out.new.items ≡ out.old.items ++ text.now ++ 10 ∷ []) }
{
    out.extend_from_slice(text)?;
    Ok(out.push(b'\n')?)
}
