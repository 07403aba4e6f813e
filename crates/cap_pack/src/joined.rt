//! The bytes that the lines of an input spell, joined.

ghost use Rattle.std.specs.Prelude.{◌≡◌, ◌≤◌, ◌↔◌, ℕ, List, [], Err, IfOk, IsOkAnd, length};
ghost use Rattle.cap_pack.specs.Cap.{CapOf};
ghost use Rattle.cap_pack.specs.Held.{IsCap};
ghost use Rattle.cap_pack.specs.Input.{SpellsLine, input_with, joining, within_cap_limit};
ghost use Rattle.cap_pack.specs.Stops.{StopsPacking};
ghost use Rattle.io_edge.specs.declared.line.TheConstants.{LINE_LIMIT};
ghost use Rattle.script_tool.specs.Words.{Reads};

use crate::cap::{self, Cap};
use crate::limit::CAP_LIMIT;
use crate::stop::CapStop;
use arrayvec::ArrayVec;
use io_edge::LINE_LIMIT;
use line_runs::{LineTaker, Taking, Text};
use script_tool::says_nothing;
use script_tool::values::bytes;
use std::alloc::{AllocError, Global};
use std::marker::Model;

// How many bytes a line spells, at most.
const LINE_BYTES: usize = LINE_LIMIT / 2;

// The bytes that a line spells, or nothing where it is malformed.
#[tactic(auto, unfolding(script_lines::specs::Words::SpellsUpTo))]
fn spelled(line: &[u8]) -> Option<ArrayVec<u8, LINE_BYTES>>
    requires { length line.now ≤ LINE_LIMIT }
    ensures { Reads (λ bytes. SpellsLine line.now bytes.items) result }
{
    if says_nothing(line) {
        return Some(ArrayVec::new());
    }
    bytes(line)
}

/// The bytes that the lines of an input spell, one line after the other, or that there are more than `CAP_LIMIT` of them.
#[derive(Drop)]
pub struct Joined {
    bytes: Vec<u8>,
    large: bool,
}

impl Model for Joined {
    ghost use Rattle.std.specs.Prelude.{ℕ, ◌≤◌, List, Option, None, Some, if◌then◌else◌, vec_capacity, vec_len};
    ghost use Rattle.cap_pack.specs.declared.limit.TheConstants.{CAP_LIMIT};

    ghost Value = { Option (List ℕ) };

    ghost view = { λ j. if j.large then None else Some j.bytes.items };

    ghost invariant = { λ j. (vec_len j.bytes ≤ CAP_LIMIT) × (CAP_LIMIT ≤ vec_capacity j.bytes) };
}

impl Joined {
    /// No bytes. Takes memory for all that can come. `AllocError` is want of that memory.
    pub fn new(alloc: Global) -> Result<Joined, AllocError>
        ensures { IfOk result (λ kept. kept ≡ within_cap_limit []) }
    {
        Ok(Joined {
            bytes: Vec::with_capacity(alloc, CAP_LIMIT)?,
            large: false,
        })
    }

    // Joins further bytes.
    fn add(&mut self, bytes: &[u8])
        ensures { self.new ≡ input_with self.old bytes.now }
    {
        if self.large || bytes.len() > CAP_LIMIT - self.bytes.len() {
            self.large = true;
        } else {
            self.bytes.extend_from_slice(bytes).unwrap();
        }
    }

    /// Reads all bytes that were spelled, as `read` does, though there may be more than are kept.
    pub fn read(&self) -> Result<Cap<'_>, CapStop>
        ensures same { (all : List ℕ) → self.now ≡ within_cap_limit all → IfOk result (λ cap. cap.bytes.now ≡ all) }
        ensures cap { IfOk result (λ cap. (aids : List (List ℕ)) × IsCap cap aids) }
        ensures only { (all file : List ℕ) (aids : List (List ℕ)) → self.now ≡ within_cap_limit all → CapOf all file aids
            → IsOkAnd result (λ cap. (cap.package ≡ file) × IsCap cap aids) }
        ensures stop { (all : List ℕ) (stop : CapStop) → self.now ≡ within_cap_limit all → (result ≡ Err stop) ↔ StopsPacking all stop }
    {
        if self.large {
            return Err(CapStop::Large);
        }
        cap::read(&self.bytes)
    }
}

impl LineTaker for Joined {
    ghost does = { joining };

    fn take_line(&mut self, line: &[u8], text: &mut Text) -> Taking {
        text.clear();
        match spelled(line) {
            Some(bytes) => {
                self.add(&bytes);
                Taking::Taken
            }
            None => Taking::NoForm,
        }
    }
}
