//! Sources, sinks and lines.

ghost use Rattle.std.specs.Prelude.{◌<◌};

use io_edge::{
    LineStop, Lines, MemSink, MemSource, ReadFailed, Sink, SliceSource, Source, StdSink, StdSource,
};
use std::alloc::{AllocError, Global};
use std::io;
use std::io::{Read, Write};
use std::test::Fail;

/// The lines of a source, each with a bar after it, and the stop that follows them.
fn cut<S: Source>(
    alloc: Global,
    source: &mut S,
) -> Result<(Vec<u8>, Option<LineStop>), AllocError> {
    let mut text = Vec::new(alloc);
    let mut lines = Lines::new();
    for _ in 0..20 {
        match lines.next_line(source) {
            Ok(line) => {
                text.extend_from_slice(line.text)?;
                text.push(b'|')?;
            }
            Err(stop) => return Ok((text, Some(stop))),
        }
    }
    Ok((text, None))
}

#[test]
fn cuts_the_same_lines_in_any_pieces(rt: HostRuntime) -> Result<(), Fail> {
    let cases: [(&[u8], &[u8]); 8] = [
        (b"", b""),
        (b"\n", b"|"),
        (b"\n\n\r\n", b"|||"),
        (b"one", b"one|"),
        (b"one\n", b"one|"),
        (b"one\r\ntwo\r\n", b"one|two|"),
        (b"a\rb\r\r\n\n\rc\nlast", b"a\rb\r||\rc|last|"),
        (b"one\ntwo\r", b"one|two\r|"),
    ];
    for (bytes, want) in cases {
        let cut = cuts(rt.alloc(), bytes, want)?;
        assert!(rt; cut == [true; 6], "{bytes:?}");
    }
    Ok(())
}

/// Whether these lines and the end come from a source.
fn ends<S: Source>(alloc: Global, source: &mut S, want: &[u8]) -> Result<bool, AllocError> {
    let (text, stop) = cut(alloc, source)?;
    Ok(text.as_slice() == want && stop == Some(LineStop::End))
}

fn ends_by(alloc: Global, bytes: &[u8], piece: usize, want: &[u8]) -> Result<bool, AllocError>
    requires { 0 < piece }
{
    ends(alloc, &mut MemSource::new(alloc, bytes, piece, &[])?, want)
}

/// Whether they come from memory in pieces of 1, 2, 7 and 4,096 bytes, from a slice and from a reader of std.
fn cuts(alloc: Global, bytes: &[u8], want: &[u8]) -> Result<[bool; 6], AllocError> {
    Ok([
        ends_by(alloc, bytes, 1, want)?,
        ends_by(alloc, bytes, 2, want)?,
        ends_by(alloc, bytes, 7, want)?,
        ends_by(alloc, bytes, 4096, want)?,
        ends(alloc, &mut SliceSource::new(bytes), want)?,
        ends(alloc, &mut StdSource::new(bytes), want)?,
    ])
}

/// The number and the length of the next line.
fn measure<S: Source>(lines: &mut Lines, source: &mut S) -> Result<(u32, usize), LineStop> {
    match lines.next_line(source) {
        Ok(line) => Ok((line.number, line.text.len())),
        Err(stop) => Err(stop),
    }
}

#[test]
fn gives_a_stop_again(rt: HostRuntime) -> Result<(), Fail> {
    let long = [b'0'; 523];
    let cases: [(&[u8], &[u32], LineStop); 3] = [
        (b"", &[], LineStop::End),
        (b"one", &[0], LineStop::ReadFailed),
        (&long, &[], LineStop::TooLong(1)),
    ];
    for (bytes, fails, want) in cases {
        let mut source = MemSource::new(rt.alloc(), bytes, 600, fails)?;
        let mut lines = Lines::new();
        for _ in 0..3 {
            assert!(rt; measure(&mut lines, &mut source) == Err(want));
        }
    }
    Ok(())
}

/// Where the bytes taken are too long for a line whatever follows, no more is read: the refused read that would follow
/// doesn't come.
#[test]
fn reads_on_only_where_a_line_may_yet_fit(rt: HostRuntime) -> Result<(), Fail> {
    let cases: [(usize, &[u8], LineStop); 4] = [
        (521, b"\r", LineStop::ReadFailed),
        (522, b"", LineStop::ReadFailed),
        (522, b"\r", LineStop::ReadFailed),
        (523, b"", LineStop::TooLong(1)),
    ];
    for (count, end, want) in cases {
        let mut bytes = Vec::new(rt.alloc());
        for _ in 0..count {
            bytes.push(b'0')?;
        }
        bytes.extend_from_slice(end)?;
        let mut source = MemSource::new(rt.alloc(), &bytes, 4096, &[1])?;
        let mut lines = Lines::new();
        assert!(rt;
            measure(&mut lines, &mut source) == Err(want),
            "{count} {end:?}"
        );
    }
    Ok(())
}

/// A reader and writer that refuses each call.
#[derive(Drop)]
struct Refuses;

impl Read for Refuses {
    fn read(&mut self, _buf: &mut [u8]) -> io::Result<usize> {
        Err(io::ErrorKind::BrokenPipe.into())
    }
}

impl Write for Refuses {
    fn write(&mut self, _buf: &[u8]) -> io::Result<usize> {
        Err(io::ErrorKind::BrokenPipe.into())
    }

    fn flush(&mut self) -> io::Result<()> {
        Err(io::ErrorKind::BrokenPipe.into())
    }
}

/// Writes twice and flushes, and answers which of these calls failed.
fn write_twice<K: Sink>(sink: &mut K) -> [bool; 3] {
    let first = sink.write_all(b"9000");
    let second = sink.write_all(b"6d00\n");
    let flushed = sink.flush();
    [first.is_err(), second.is_err(), flushed.is_err()]
}

/// A sink goes on after a call that it refused.
#[test]
fn keeps_what_was_written(rt: HostRuntime) -> Result<(), Fail> {
    let cases: [(usize, &[u32], &[u8], [bool; 3]); 7] = [
        (9, &[], b"90006d00\n", [false, false, false]),
        (8, &[], b"9000", [false, true, false]),
        (4, &[2], b"9000", [false, true, true]),
        (3, &[], b"", [true, true, false]),
        (9, &[0], b"6d00\n", [true, false, false]),
        (9, &[1, 2], b"9000", [false, true, true]),
        (9, &[3], b"90006d00\n", [false, false, false]),
    ];
    for (room, fails, want, refused) in cases {
        let mut sink = MemSink::new(rt.alloc(), room, fails)?;
        let handed_on: &[u8] = if refused[2] { b"" } else { want };
        assert!(rt;
            (
                write_twice(&mut sink),
                sink.written(),
                sink.handed_on(),
                sink.flushes()
            ) == (refused, want, handed_on, 1),
            "{room} {fails:?}"
        );
    }
    Ok(())
}

#[test]
fn hands_on_what_was_written_before_a_flush(rt: HostRuntime) -> Result<(), Fail> {
    let mut sink = MemSink::new(rt.alloc(), 9, &[])?;
    let first = sink.write_all(b"9000").is_ok();
    let nothing = sink.handed_on().is_empty();
    let flushed = sink.flush().is_ok();
    let second = sink.write_all(b"6d00").is_ok();
    let front = sink.handed_on() == b"9000".as_slice();
    let again = sink.flush().is_ok();
    assert!(rt; [first, nothing, flushed, second, front, again] == [true; 6]);
    assert!(rt; (sink.handed_on(), sink.flushes()) == (b"90006d00".as_slice(), 2));
    Ok(())
}

#[test]
fn hands_on_to_std(rt: HostRuntime) {
    let mut bytes = Vec::new(rt.alloc());
    let taken = write_twice(&mut StdSink::new(&mut bytes));
    assert!(rt; (taken, bytes.as_slice()) == ([false; 3], b"90006d00\n".as_slice()));
    let refused = write_twice(&mut StdSink::new(Refuses));
    let mut source = StdSource::new(Refuses);
    let read = source.read_some(&mut [0; 4]) == Err(ReadFailed);
    let stop = measure(&mut Lines::new(), &mut source);
    assert!(rt; (refused, read, stop) == ([true; 3], true, Err(LineStop::ReadFailed)));
}
