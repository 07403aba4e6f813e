//! What is played on a card from power on, up to the first thing that the device fails in.

ghost use Rattle.std.specs.Prelude.{◌≡◌, [], true};

use crate::script::Player;
use card_check::is_card;
use case_cards::{CaseError, change};
use flash_core::Flash;
use rec_store::Records;
use std::alloc::Global;

/// The most changes that a commit is made of: each may be of another page.
const CHANGES: usize = 30;

/// What is played.
#[derive(Clone, Copy)]
pub enum Act<'a> {
    /// The lines of a script.
    Script(&'a [Vec<u8>]),

    /// One commit of these changes.
    Commit(&'a [Vec<u8>]),
}

/// What came of it.
#[derive(Drop)]
pub struct Played<F> {
    /// How many steps were done.
    pub done: usize,
    pub is_whole: bool,
    pub flash: F,
}

impl<'a> Act<'a> {
    /// How many steps there are: each leaves a registry.
    pub fn steps(&self) -> usize {
        match self {
            Act::Script(lines) => lines.len(),
            Act::Commit(_) => 1,
        }
    }

    /// The first steps of it.
    pub fn front(&self, steps: usize) -> Act<'a> {
        match *self {
            Act::Script(lines) => Act::Script(lines.get(..steps).unwrap_or(lines)),
            Act::Commit(_) if steps == 0 => Act::Script(&[]),
            Act::Commit(changes) => Act::Commit(changes),
        }
    }

    /// Plays it on the card of a device.
    pub fn play<F: Flash + Drop>(&self, alloc: Global, flash: F) -> Result<Played<F>, CaseError> {
        match self {
            Act::Script(lines) => play_script(alloc, flash, lines),
            Act::Commit(changes) => play_commit(alloc, flash, changes),
        }
    }
}

fn play_script<F: Flash + Drop>(
    alloc: Global,
    flash: F,
    lines: &[Vec<u8>],
) -> Result<Played<F>, CaseError> {
    let mut player = match Player::over(alloc, flash) {
        Ok(player) => player,
        Err(flash) => return Ok(Played::nothing(flash)),
    };
    let mut done: usize = 0;
    for line in lines {
        if player.step(line).is_none() {
            return Err(CaseError::NoForm);
        }
        if player.live() {
            done = done.saturating_add(1);
        }
    }
    Ok(Played {
        done,
        is_whole: player.live(),
        flash: player.into_flash(),
    })
}

fn play_commit<F: Flash + Drop>(
    alloc: Global,
    flash: F,
    changes: &[Vec<u8>],
) -> Result<Played<F>, CaseError> {
    let mut records = match Records::mount(alloc, flash) {
        Ok(records) => records,
        Err(refused) => return Ok(Played::nothing(refused.flash)),
    };
    change_each(&mut records, changes)?;
    let is_done = commit(&mut records)?;
    Ok(Played {
        done: usize::from(is_done),
        is_whole: is_done,
        flash: records.into_flash(),
    })
}

fn change_each<F: Flash>(records: &mut Records<F>, changes: &[Vec<u8>]) -> Result<(), CaseError>
    requires live { records.old.live ≡ true }
    requires none { records.old.staged ≡ [] }
    ensures { records.new.live ≡ true }
{
    if changes.len() > CHANGES {
        return Err(CaseError::NoRegistry);
    }
    for made in 0..changes.len() {
        change(records, &changes[made])?;
    }
    Ok(())
}

// Commits the changes of a card, if they make one. Answers whether the device did not fail.
fn commit<F: Flash>(records: &mut Records<F>) -> Result<bool, CaseError>
    requires { records.old.live ≡ true }
{
    if !is_card(records.tables()) {
        return Err(CaseError::NoRegistry);
    }
    Ok(records.commit().is_ok())
}

impl<F> Played<F> {
    // Power on failed.
    fn nothing(flash: F) -> Played<F> {
        Played {
            done: 0,
            is_whole: false,
            flash,
        }
    }
}
