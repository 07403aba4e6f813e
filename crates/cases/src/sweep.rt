//! Power that is lost, and calls that fail, at each call on a device in turn.

use crate::act::{Act, Played};
use crate::counted::Calls;
use crate::device::{Faults, failing};
use crate::fault_plan::FailsAfterChanges;
use crate::line::Sweep;
use crate::tool::{Streams, call};
use case_cards::{CaseError, Image};
use flash_core::{FaultyFlash, FuseFlash, MemFlash, OnceFlash};
use std::alloc::{AllocError, Global};
use std::cell::Cell;

/// The seeds of power cuts: each page comes back, stays or is torn, each with one of them.
const SEEDS: u64 = 3;

/// More calls than are made.
const MOST_CALLS: u64 = 100_000;

/// The outcomes of what is played over and over.
#[derive(Drop)]
pub struct Outcomes {
    alloc: Global,

    /// The registry before it and after each of its steps, as text.
    registries: Vec<Vec<u8>>,

    /// How many outcomes were each of these registries.
    counts: Vec<u32>,

    /// How many were none, or one from before a step that was done, or from later than the step in progress.
    others: u32,
}

/// Plays this on cards that all begin with these pages.
pub fn sweep(
    alloc: Global,
    kind: Sweep,
    image: &Image,
    act: &Act<'_>,
) -> Result<Outcomes, CaseError> {
    let mut outcomes = Outcomes::of(alloc, image, act)?;
    match kind {
        Sweep::Cut | Sweep::CutTwice | Sweep::CutWrites | Sweep::CutOn => {
            outcomes.cut_each(image, act, kind)?
        }
        Sweep::Fail => outcomes.fail_each(image, act)?,
    }
    Ok(outcomes)
}

impl Outcomes {
    fn of(alloc: Global, image: &Image, act: &Act<'_>) -> Result<Outcomes, CaseError> {
        let mut registries = Vec::new(alloc);
        let mut counts = Vec::new(alloc);
        for steps in 0..=act.steps() {
            let played = act.front(steps).play(alloc, image.device(alloc)?)?;
            registries.push(shown(alloc, played.flash)?)?;
            counts.push(0)?;
        }
        Ok(Outcomes {
            alloc,
            registries,
            counts,
            others: 0,
        })
    }

    fn cut_each(&mut self, image: &Image, act: &Act<'_>, kind: Sweep) -> Result<(), CaseError> {
        for calls in 0..MOST_CALLS {
            let mut is_whole = false;
            for seed in 0..SEEDS {
                let played = play_up_to(self.alloc, kind, image, act, calls)?;
                is_whole = played.is_whole;
                let mut flash = played.flash;
                flash.power_cut(seed);
                match kind {
                    Sweep::CutTwice | Sweep::CutWrites => {
                        self.cut_recovery(played.done, flash, kind)?
                    }
                    Sweep::CutOn => self.cut_recoveries(played.done, flash)?,
                    _ => self.tally(played.done, flash)?,
                }
            }
            if is_whole {
                break;
            }
        }
        Ok(())
    }

    // Cuts power at each call of powering on a card, or at each write and sync.
    fn cut_recovery(&mut self, done: usize, flash: MemFlash, kind: Sweep) -> Result<(), CaseError> {
        let image = Image::of(self.alloc, &flash)?;
        for calls in 0..MOST_CALLS {
            let mut is_on = false;
            for seed in 0..SEEDS {
                let played = play_up_to(self.alloc, kind, &image, &Act::Script(&[]), calls)?;
                is_on = played.is_whole;
                let mut flash = played.flash;
                flash.power_cut(seed);
                self.tally(done, flash)?;
            }
            if is_on {
                break;
            }
        }
        Ok(())
    }

    // Cuts power at the first call of powering on a card, then at the second, and so on, until it is on.
    fn cut_recoveries(&mut self, done: usize, mut flash: MemFlash) -> Result<(), CaseError> {
        for calls in 0..MOST_CALLS {
            let played = Act::Script(&[]).play(self.alloc, FuseFlash::new(flash, calls))?;
            let is_on = played.is_whole;
            flash = played.flash.into_inner();
            flash.power_cut(calls);
            let left = Image::of(self.alloc, &flash)?;
            self.tally(done, flash)?;
            if is_on {
                break;
            }
            flash = left.device(self.alloc)?;
        }
        Ok(())
    }

    fn fail_each(&mut self, image: &Image, act: &Act<'_>) -> Result<(), CaseError> {
        for call in 0..MOST_CALLS {
            let flash = OnceFlash::new(image.device(self.alloc)?, call);
            let played = act.play(self.alloc, flash)?;
            self.tally(played.done, played.flash.into_inner())?;
            if played.is_whole {
                break;
            }
        }
        Ok(())
    }

    // Counts an outcome: the registry of the steps that were done, or of one more.
    fn tally(&mut self, done: usize, flash: MemFlash) -> Result<(), CaseError> {
        let text = shown(self.alloc, flash)?;
        let next = done.saturating_add(1);
        if self.is_registry(done, &text) || self.is_registry(next, &text) {
            let first = self.registries.iter().position(|other| other == &text);
            if let Some(count) = first.and_then(|at| self.counts.get_mut(at)) {
                *count = count.saturating_add(1);
            }
        } else {
            self.others = self.others.saturating_add(1);
        }
        Ok(())
    }

    fn is_registry(&self, steps: usize, text: &[u8]) -> bool {
        match self.registries.get(steps) {
            Some(registry) => registry.as_slice() == text,
            None => false,
        }
    }

    /// How many outcomes were which registry, by the number of steps after which it first stands.
    pub fn text(&self) -> Result<String, AllocError> {
        let mut text = String::new(self.alloc);
        for (steps, count) in self.counts.iter().enumerate() {
            if *count > 0 {
                text.push_str(&format!(in self.alloc; "{count} after {steps}, ")?)?;
            }
        }
        text.push_str(&format!(in self.alloc; "{} otherwise", self.others)?)?;
        Ok(text)
    }
}

// Plays this on a device that takes so many calls, or where `kind` says so, so many writes and syncs and any reads: power that
// is lost at a read leaves what it leaves at the next write or sync.
fn play_up_to(
    alloc: Global,
    kind: Sweep,
    image: &Image,
    act: &Act<'_>,
    count: u64,
) -> Result<Played<MemFlash>, CaseError> {
    let (changes, calls) = match kind {
        Sweep::CutWrites => (count, u64::MAX),
        _ => (u64::MAX, count),
    };
    let plan = FailsAfterChanges { left: changes };
    let flash = FaultyFlash::with_plan(FuseFlash::new(image.device(alloc)?, calls), plan);
    let played = act.play(alloc, flash)?;
    Ok(Played {
        done: played.done,
        is_whole: played.is_whole,
        flash: played.flash.into_inner().into_inner(),
    })
}

// The registry of a device as `gp show` writes it, with the status.
fn shown(alloc: Global, flash: MemFlash) -> Result<Vec<u8>, CaseError> {
    let calls = Cell::new(Calls::NONE);
    let device = failing(flash, Faults::NONE, &calls);
    let (called, _flash) = call(alloc, Some("show"), b"", &Streams::ample(alloc), device)?;
    let mut text = Vec::from_slice(alloc, called.sink.written())?;
    text.push(called.status)?;
    Ok(text)
}
