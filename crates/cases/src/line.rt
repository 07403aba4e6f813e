//! The forms of a line of the language of cases. docs/TESTS.md lists them.

use case_cards::number;
use script_tool::spelled_number;
use script_tool::words::cut;

/// A line that changes how the streams of the next call of `gp` are made.
#[derive(Clone, Copy)]
pub enum StreamLine<'a> {
    /// How many bytes a read gives at the most.
    Piece(u32),

    /// Numbers of reads that are refused.
    RefusedReads(&'a [u8]),

    /// How many bytes the sink takes.
    Room(u32),

    /// Numbers of calls on the sink that are refused.
    RefusedWrites(&'a [u8]),
}

/// What is tried again and again, each time with power lost or a fault at another call.
#[derive(Clone, Copy)]
pub enum Sweep {
    /// Power is lost at each call, with each seed.
    Cut,

    /// Power is lost at each call, and again while the card is powered on next.
    CutTwice,

    /// Power is lost at each write and sync, the first time and the second.
    CutWrites,

    /// Power is lost at each call, and again and again, at a later call each time that the card is powered on.
    CutOn,

    /// One call fails, and the next ones do not.
    Fail,
}

/// What a line asks for.
#[derive(Clone, Copy)]
pub enum Line<'a> {
    Nothing,

    /// A new case, with a device of zeros.
    Case(&'a [u8]),

    /// Bytes in digits, so many times, at a place in a page and on into those after it.
    Page {
        number: u32,
        place: u32,
        digits: &'a [u8],
        times: u32,
    },

    /// All pages, from a file.
    Image(&'a str),

    /// The card's state or a thing of the registry, in words.
    Thing {
        kind: &'a [u8],
        words: &'a [u8],
    },
    Format,

    /// Remembers the pages.
    Keep,

    /// Takes the pages that were remembered.
    Again,

    /// A line of input for the next call of `gp`.
    Input(&'a [u8]),

    /// Bytes of input, in digits, so many times.
    Bytes {
        digits: &'a [u8],
        times: u32,
    },
    Stream(StreamLine<'a>),

    /// A call of `gp`, with its words.
    Gp(Option<&'a str>),

    /// What the last call of `gp` did with its streams.
    Counts,

    /// A line of a script.
    Script(&'a [u8]),

    /// What the last line of a script sent.
    Sent,

    /// The rule that refused the last command of a script.
    Rule,

    /// How many calls the last call of `gp` or line of a script made on the device.
    Calls,

    /// How many lines of the registry begin with a word.
    Count(&'a [u8]),

    /// The lines of a workload.
    Mill {
        seed: u64,
        rounds: u32,
    },

    /// `count` bytes from a place in a page on.
    Look {
        number: u32,
        place: u32,
        count: u32,
    },

    /// The device fails from this call on, from when it is used next.
    Fuse(u32),

    /// This one call fails.
    Once(u32),
    PowerOn,
    PowerOff,

    /// Power is lost, with this seed.
    Cut(u64),

    /// A line of the script of sweeps.
    Later(&'a [u8]),

    /// A change of the registry, which is to be committed.
    Change(&'a [u8]),

    /// Commits the changes.
    Commit,
    Sweep(Sweep),
}

impl<'a> Line<'a> {
    /// Reads a line, if it has a form.
    pub fn read(line: &'a [u8]) -> Option<Line<'a>> {
        if line.is_empty() || line[0] == b'#' {
            return Some(Line::Nothing);
        }
        match cut(line) {
            Some((verb, rest)) => match verb {
                b"<" => Some(Line::Input(rest)),
                b">" => Some(Line::Script(rest)),
                b"|" => Some(Line::Later(rest)),
                b"gp" => Some(Line::Gp(Some(text(rest)?))),
                b"page" => read_page(rest),
                b"look" => read_look(rest),
                b"mill" => read_mill(rest),
                _ => match device_line(verb, rest) {
                    Some(line) => Some(line),
                    None => stream_line(verb, rest),
                },
            },
            None => lone_word(line),
        }
    }
}

fn text(bytes: &[u8]) -> Option<&str> {
    std::str::from_utf8(bytes).ok()
}

fn lone_word(word: &[u8]) -> Option<Line<'_>> {
    match word {
        b"format" => Some(Line::Format),
        b"keep" => Some(Line::Keep),
        b"again" => Some(Line::Again),
        b"gp" => Some(Line::Gp(None)),
        b"counts" => Some(Line::Counts),
        b"sent" => Some(Line::Sent),
        b"rule" => Some(Line::Rule),
        b"calls" => Some(Line::Calls),
        b"commit" => Some(Line::Commit),
        _ => None,
    }
}

// HEX [xTIMES]
fn repeated(words: &[u8]) -> Option<(&[u8], u32)> {
    match cut(words) {
        Some((digits, [b'x', times @ ..])) => Some((digits, number(times)?)),
        Some(_) => None,
        None => Some((words, 1)),
    }
}

// PAGE PLACE HEX [xTIMES]
fn read_page(words: &[u8]) -> Option<Line<'_>> {
    let (page, rest) = cut(words)?;
    let (place, rest) = cut(rest)?;
    let (digits, times) = repeated(rest)?;
    Some(Line::Page {
        number: number(page)?,
        place: number(place)?,
        digits,
        times,
    })
}

// PAGE PLACE COUNT
fn read_look(words: &[u8]) -> Option<Line<'_>> {
    let (page, rest) = cut(words)?;
    let (place, count) = cut(rest)?;
    Some(Line::Look {
        number: number(page)?,
        place: number(place)?,
        count: number(count)?,
    })
}

// SEED ROUNDS
fn read_mill(words: &[u8]) -> Option<Line<'_>> {
    let (seed, rounds) = cut(words)?;
    Some(Line::Mill {
        seed: spelled_number(seed)?,
        rounds: number(rounds)?,
    })
}

fn device_line<'a>(verb: &'a [u8], rest: &'a [u8]) -> Option<Line<'a>> {
    match verb {
        b"case" => Some(Line::Case(rest)),
        b"card" | b"domain" | b"app" | b"file" | b"key" | b"object" => Some(Line::Thing {
            kind: verb,
            words: rest,
        }),
        b"set" => Some(Line::Change(rest)),
        b"image" => Some(Line::Image(text(rest)?)),
        b"fuse" => Some(Line::Fuse(number(rest)?)),
        b"once" => Some(Line::Once(number(rest)?)),
        b"cut" => match rest {
            b"each" => Some(Line::Sweep(Sweep::Cut)),
            b"twice" => Some(Line::Sweep(Sweep::CutTwice)),
            b"writes" => Some(Line::Sweep(Sweep::CutWrites)),
            b"on" => Some(Line::Sweep(Sweep::CutOn)),
            _ => Some(Line::Cut(spelled_number(rest)?)),
        },
        b"fail" if rest == b"each".as_slice() => Some(Line::Sweep(Sweep::Fail)),
        b"power" => match rest {
            b"on" => Some(Line::PowerOn),
            b"off" => Some(Line::PowerOff),
            _ => None,
        },
        b"count" => Some(Line::Count(rest)),
        _ => None,
    }
}

fn stream_line<'a>(verb: &'a [u8], rest: &'a [u8]) -> Option<Line<'a>> {
    let line = match verb {
        b"bytes" => {
            let (digits, times) = repeated(rest)?;
            return Some(Line::Bytes { digits, times });
        }
        b"piece" => StreamLine::Piece(number(rest)?),
        b"room" => StreamLine::Room(number(rest)?),
        b"reads" => StreamLine::RefusedReads(rest),
        b"writes" => StreamLine::RefusedWrites(rest),
        _ => return None,
    };
    Some(Line::Stream(line))
}
