//! Whether tables that were read from a storage image are those of a card.
//!
//! A card keeps its registry in slots, and an image may have anything in them. [`is_card`] judges all of it before any of
//! it is trusted: the slots lay out a registry that a card may have, the Issuer Security Domain and the factory's
//! Executable Load File are in theirs, and no load page is named twice. Nothing is known of the tables before, so steps
//! from a domain to the next are counted.
//!
//! Not judged: the life cycle state of the card, the bytes of load pages, page numbers past a file's length, and numbers
//! that stand at a key which keeps no sequence counter.
#![tactic(auto)]

mod card;
mod domains;
mod entries;
mod files;
mod keys;
mod load_pages;
mod names;
mod objects;
mod room;
mod slots;

pub use card::is_card;
