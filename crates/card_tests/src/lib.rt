//! Tests of what a card keeps, where they need a type: devices, pages, the registry and what judges it, and the desk that judges
//! receipts. There is nothing to call. What a card answers is tried by the program `cases`.
//!
//! - `desks`: a desk that signs tokens and judges receipts, and its lines.
//! - `devices`: flash devices that fail, and a file.
//! - `domains`: which security domains are above which.
//! - `frames`: thirty frames.
//! - `journal`: load pages that a commit keeps.
//! - `judging`: rules that no command of a card comes to.
//! - `keeper`: keys in memory.
//! - `registry_changes`: entries and load files that come and go on a card.
//! - `tables`: tables that no image can spell.
//! - `values`: identifiers, privileges, codes, sequence counters.
#![tactic(auto)]

#[cfg(test)]
mod desks;
#[cfg(test)]
mod devices;
#[cfg(test)]
mod domains;
#[cfg(test)]
mod frames;
#[cfg(test)]
mod journal;
#[cfg(test)]
mod judging;
#[cfg(test)]
mod keeper;
#[cfg(test)]
mod registry_changes;
#[cfg(test)]
mod tables;
#[cfg(test)]
mod values;
