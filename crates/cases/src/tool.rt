//! Calls of the program `gp`, over streams in memory.

use crate::device::{Device, memory};
use case_cards::CaseError;
use flash_core::MemFlash;
use gp_tool::gp;
use io_edge::{MemSink, MemSource};
use std::alloc::{AllocError, Global};

/// How the streams of a call are made.
#[derive(Drop)]
pub struct Streams {
    /// How many bytes a read gives at the most.
    pub piece: usize,

    /// The numbers of the reads that are refused.
    pub refused_reads: Vec<u32>,

    /// How many bytes the sink takes.
    pub room: usize,

    /// The numbers of the calls on the sink that are refused, of writes and flushes together.
    pub refused_writes: Vec<u32>,
}

impl Streams {
    /// Nothing is refused.
    pub fn ample(alloc: Global) -> Streams {
        Streams {
            piece: 4096,
            refused_reads: Vec::new(alloc),
            room: 65536,
            refused_writes: Vec::new(alloc),
        }
    }
}

/// What a call leaves, but for its device.
#[derive(Drop)]
pub struct Called {
    pub status: u8,

    /// How many commands were answered.
    pub done: u32,
    pub sink: MemSink,
}

/// Calls `gp` with these words, which have a slash between two.
pub fn call(
    alloc: Global,
    words: Option<&str>,
    input: &[u8],
    streams: &Streams,
    device: Device<'_>,
) -> Result<(Called, MemFlash), CaseError> {
    let mut given = Vec::new(alloc);
    if let Some(words) = words {
        for word in words.split('/') {
            given.push(String::from_str(alloc, word)?)?;
        }
    }
    let piece = streams.piece.max(1);
    let mut source = MemSource::new(alloc, input, piece, &streams.refused_reads)?;
    let mut sink = MemSink::new(alloc, streams.room, &streams.refused_writes)?;
    let ended = gp(alloc, &given, &mut source, &mut sink, device);
    let called = Called {
        status: ended.status,
        done: ended.done,
        sink,
    };
    Ok((called, memory(ended.flash)))
}
