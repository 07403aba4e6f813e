//! Executable Load Files to load (GlobalPlatform Card Specification 2.3.1, 11.6).

ghost use Rattle.std.specs.Prelude.{◌≡◌, ◌≤◌, [], ◌∷◌, drop, length, take};
ghost use Rattle.script_lines.specs.Prelude.{Reads, SaysContent, SaysLoad, SpellsDomain, aid_or_none, beginning_load, block_element, command_of_plain, content_bytes, hash_of, hash_word, install_command, length_field, remaining_words};

use crate::block::tag_and_length;
use crate::content::{Piece, part};
use crate::install::install;
use crate::number::count;
use crate::octets;
use crate::plain::Plain;
use crate::tokens::Tokens;
use crate::values::{aid, byte};
use crate::words::Words;
use arrayvec::ArrayVec;
use card_types::Aid;
use tokens_receipts::four_fields;

/// A hash function.
#[derive(Clone, Copy)]
pub enum HashFunction {
    Sha1,
    Sha256,
}

/// A number of bytes of one value.
#[derive(Clone, Copy)]
pub struct Fill {
    pub count: u16,
    pub byte: u8,
}

/// What a Load File holds: bytes as they are written, or bytes of one value.
#[derive(Drop)]
pub enum Content {
    Written(ArrayVec<u8, 258>),
    Filled(Fill),
}

/// A file to load: its AID, its security domain if one is named, the function that its hash is made by, if it
/// has one, and what it holds.
#[derive(Drop)]
pub struct LoadFile {
    pub file: Aid,
    pub domain: Option<Aid>,
    pub hash: Option<HashFunction>,
    pub content: Content,
}

#[tactic(auto, unfolding(crate::specs::Load::SpellsDomain))]
fn domain(word: &[u8]) -> Option<Option<Aid>>
    ensures { Reads (SpellsDomain word.now) result }
{
    if word == b"-".as_slice() {
        return Some(None);
    }
    let aid = aid(word)?;
    Some(Some(aid))
}

fn hash(word: &[u8]) -> Option<Option<HashFunction>>
    ensures { Reads (λ hash. word.now ≡ hash_word hash) result }
{
    if word == b"none".as_slice() {
        Some(None)
    } else if word == b"sha1".as_slice() {
        Some(Some(HashFunction::Sha1))
    } else if word == b"sha256".as_slice() {
        Some(Some(HashFunction::Sha256))
    } else {
        None
    }
}

// `fill N BB`
fn filled(mut words: Words<'_>) -> Option<Fill>
    ensures { Reads (λ fill. SaysContent (remaining_words words.entry) (Content.Filled fill)) result }
{
    words.fixed(b"fill")?;
    let count = count(words.take()?)?;
    let byte = byte(words.last()?)?;
    Some(Fill { count, byte })
}

fn held(words: Words<'_>) -> Option<Content>
    ensures { Reads (SaysContent (remaining_words words.entry)) result }
{
    if let Some(fill) = filled(words) {
        return Some(Content::Filled(fill));
    }
    if let Some(bytes) = octets::read(words) {
        return Some(Content::Written(bytes));
    }
    None
}

/// Reads `FILE DOMAIN HASH HEX` or `FILE DOMAIN HASH fill N BB`, the words after `load`.
#[inline(never)]
pub fn read(mut words: Words<'_>) -> Option<LoadFile>
    ensures { Reads (SaysLoad (remaining_words words.entry)) result }
{
    let file = aid(words.take()?)?;
    let domain = domain(words.take()?)?;
    let hash = hash(words.take()?)?;
    let content = held(words)?;
    Some(LoadFile {
        file,
        domain,
        hash,
        content,
    })
}

// The AID, or no bytes.
fn name(aid: &Option<Aid>) -> &[u8]
    ensures name { result.now ≡ aid_or_none aid.now }
    ensures length { length result.now ≤ 16 }
{
    match aid {
        Some(aid) => aid.as_bytes(),
        None => &[],
    }
}

/// INSTALL for load of a file, for a security domain if one is named, with a Load File Data Block Hash or no bytes.
pub fn install_for_load(tokens: &Tokens, file: &Aid, domain: &Option<Aid>, hash: &[u8]) -> Plain
    requires { length hash.now ≤ 32 }
    ensures { command_of_plain result ≡ install_command tokens.now 0x02 (file.now ∷ aid_or_none domain.now ∷ hash.now ∷ [] ∷ []) }
{
    let fields = four_fields(file.as_bytes(), name(domain), hash, &[]);
    install(tokens, 0x02, fields)
}

impl LoadFile {
    // What stands before the bytes.
    fn header(&self) -> ArrayVec<u8, 4>
        ensures { result.items ≡ 0xC4 ∷ length_field (length (content_bytes self.now.content)) }
    {
        tag_and_length(self.content.len() as u16)
    }

    /// How many bytes all blocks have.
    pub fn len(&self) -> usize
        ensures { result ≡ length (block_element (content_bytes self.now.content)) }
    {
        self.header().len() + self.content.len()
    }

    /// The block after the bytes that were sent, of so many bytes or of those that are left.
    pub fn block(&self, sent: usize, size: usize) -> Piece
        requires { size ≤ 247 }
        ensures { result.items ≡ take size (drop sent (block_element (content_bytes self.now.content))) }
    {
        let header = self.header();
        let front = part(&header, sent, size);
        let from = sent.saturating_sub(header.len());
        let back = self.content.piece(from, size - front.len());
        let mut block = ArrayVec::new();
        block.try_extend_from_slice(front).unwrap();
        block.try_extend_from_slice(&back).unwrap();
        block
    }

    /// The Load File Data Block Hash, or nothing.
    pub fn hash_value(&self) -> ArrayVec<u8, 32>
        ensures { result.items ≡ hash_of self.now.hash (content_bytes self.now.content) }
    {
        let mut value = ArrayVec::new();
        match self.hash {
            None => (),
            Some(HashFunction::Sha1) => value.try_extend_from_slice(&self.content.sha1()).unwrap(),
            Some(HashFunction::Sha256) => value
                .try_extend_from_slice(&self.content.sha256())
                .unwrap(),
        }
        value
    }

    /// INSTALL for load.
    pub fn install(&self, tokens: &Tokens) -> Plain
        ensures { command_of_plain result ≡ beginning_load tokens.now self.now }
    {
        install_for_load(tokens, &self.file, &self.domain, &self.hash_value())
    }
}
