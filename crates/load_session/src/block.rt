//! The first block, which announces how many bytes come (GlobalPlatform Card Specification 2.3.1, 11.6.2.3).

ghost use Rattle.std.specs.Prelude.{◌≤◌, ℕ, List, IfNone, IfSome, drop, length};
ghost use Rattle.load_session.specs.Prelude.{AfterLength, Announces};

/// Why a block is not taken.
#[derive(Clone, Copy, Debug, PartialEq, Eq)]
pub enum BlockStop {
    /// The first block announces no length.
    FirstBlock,

    /// The file is too long, or there are not load pages enough.
    NoRoom,

    /// More bytes have come than were announced, or with the last block fewer.
    Count,

    /// The bytes have another hash.
    Hash,
}

/// What a block brings: how many bytes the file has, and where those of the block begin in its data field.
#[derive(Clone, Copy, Debug)]
pub struct Taken {
    pub size: u16,
    pub start: usize,
}

/// What a first block brings: after the tag C4 and a length other than 0 stand the first bytes.
pub(crate) fn first_block(field: &[u8]) -> Option<Taken>
    ensures within { IfSome result (λ taken. taken.start ≤ length field.now) }
    ensures some { IfSome result (λ taken. Announces field.now taken.size (drop taken.start field.now)) }
    ensures none { IfNone result ((size : ℕ) (bytes : List ℕ) → Announces field.now size bytes → ⊥) }
{
    let [0xC4, after_tag @ ..] = field else {
        return None;
    };
    match split_length(after_tag) {
        None | Some((0, _)) => None,
        Some((size, bytes)) => Some(Taken {
            size,
            start: field.len() - bytes.len(),
        }),
    }
}

// The length at the front, and the bytes after its field (ISO/IEC 7816-4:2013, chapter 6).
fn split_length(bytes: &[u8]) -> Option<(u16, &[u8])>
    ensures some { IfSome result (λ split. (field : List ℕ) × AfterLength split.0 field split.1.now bytes.now) }
    ensures none { IfNone result ((length : ℕ) (field rest : List ℕ) → AfterLength length field rest bytes.now → ⊥) }
{
    match bytes {
        [length @ 0..=0x7F, rest @ ..] => Some((u16::from(*length), rest)),
        [0x81, ..] => match bytes {
            [_, length @ 0x80.., rest @ ..] => Some((u16::from(*length), rest)),
            _ => None,
        },
        [0x82, ..] => match bytes {
            [_, high @ 1.., low, rest @ ..] => Some((u16::from_be_bytes([*high, *low]), rest)),
            _ => None,
        },
        _ => None,
    }
}
