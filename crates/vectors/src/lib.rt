//! Published vectors, and tests of what needs a type and no registry: ciphers, sessions, spellings, lines. There is nothing to
//! call.
//!
//! - `apdus`: short commands and replies, as they are spelled.
//! - `block_cipher`: the example vectors of FIPS 197.
//! - `card_sessions`: the card side of SCP03.
//! - `codes`: CMAC, derivation and CBC, by the published examples.
//! - `data_objects`: BER-TLV elements, and the places of refusals.
//! - `delegation`: tokens and receipts.
//! - `digits`: bytes and keys that hexadecimal digits write.
//! - `host_sessions`: the host side of SCP03.
//! - `known_keys`: the keys of sessions.
//! - `streams`: sources, sinks and lines.
//! - `told`: what is found wrong, in a word.
//! - `transcripts`: sessions of SCP03 with every value in between, at both ends.
#![tactic(auto)]

#[cfg(test)]
mod apdus;
#[cfg(test)]
mod block_cipher;
#[cfg(test)]
mod card_sessions;
#[cfg(test)]
mod codes;
#[cfg(test)]
mod data_objects;
#[cfg(test)]
mod delegation;
#[cfg(test)]
mod digits;
#[cfg(test)]
mod host_sessions;
#[cfg(test)]
mod known_keys;
#[cfg(test)]
mod streams;
#[cfg(test)]
mod told;
#[cfg(test)]
mod transcripts;
