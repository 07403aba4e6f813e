//! Entries and Executable Load Files by their AIDs.

ghost use Rattle.std.specs.Prelude.{◌≡◌, ◌≢◌, IfSome, IfNone, vec_len, option_copied};
ghost use Rattle.card_types.specs.Found.{IsNext, NoneFollows, aid_of};
ghost use Rattle.card_types.specs.Aid.{aid_order, same_aid};
ghost use Rattle.card_types.specs.Search.{is_above};
ghost use Rattle.std.proofs.lemmas.Cmp.{nat_list_cmp_total, on_total};

use crate::aid::Aid;
use crate::limits::{ENTRIES, FILES};
use crate::search::{Search, Wants, first_that, least};
use crate::tables::{Entry, LoadFile, Tables};

/// A thing of the registry, by its slot.
#[derive(Clone, Copy, Debug, PartialEq, Eq)]
pub enum Found {
    /// An application or a security domain.
    Entry(u8),

    /// An Executable Load File.
    File(u8),
}

/// What GET STATUS lists (GlobalPlatform Card Specification 2.3.1, 11.4.2.1).
#[derive(Clone, Copy, Debug, PartialEq, Eq)]
pub enum Kind {
    /// The entry in slot 0.
    Issuer,

    /// The entries in all other slots.
    Entries,

    /// The Executable Load Files.
    Files,
}

// Things with this AID.
#[derive(Drop)]
struct WithAid<'a> {
    aid: &'a Aid,
}

impl WithAid<'_> {
    fn is(&self, aid: &Aid) -> bool
        ensures { result ≡ same_aid aid.now self.now.aid.now }
    {
        aid == self.aid
    }
}

impl Wants<Entry> for WithAid<'_> {
    ghost fits = { λ with entry. same_aid entry.aid with.aid.now };

    fn fits(&self, thing: &Entry) -> bool {
        self.is(&thing.aid)
    }
}

impl Wants<LoadFile> for WithAid<'_> {
    ghost fits = { λ with file. same_aid file.aid with.aid.now };

    fn fits(&self, thing: &LoadFile) -> bool {
        self.is(&thing.aid)
    }
}

/// The thing with this AID.
pub fn find(tables: &Tables, aid: &Aid) -> Option<Found>
    requires entries { vec_len tables.now.entries ≡ ENTRIES }
    requires files { vec_len tables.now.files ≡ FILES }
    ensures some { IfSome result (λ found. aid_of tables.now found ≡ Some aid.now) }
    ensures none { IfNone result ((found : Found) → aid_of tables.now found ≢ Some aid.now) }
{
    let with = WithAid { aid };
    if let Some(found) = first_that(&tables.entries, &with) {
        return Some(Found::Entry(found.slot));
    }
    match first_that(&tables.files, &with) {
        Some(found) => Some(Found::File(found.slot)),
        None => None,
    }
}

/// Things with an AID above the given one, if one is given, by their AIDs.
#[derive(Drop)]
pub struct Following<'a> {
    pub after: Option<&'a Aid>,
}

impl Following<'_> {
    /// Whether a thing with this AID is one of them.
    pub fn has(&self, aid: &Aid) -> bool
        ensures { result ≡ is_above (option_copied self.now.after) aid.now }
    {
        match self.after {
            Some(after) => after.is_below(aid),
            None => true,
        }
    }
}

impl Search<Entry> for Following<'_> {
    ghost fits = { λ following entry. is_above (option_copied following.after) entry.aid };

    ghost order = { λ _ a b. aid_order a.aid b.aid };

    fn fits(&self, thing: &Entry) -> bool {
        self.has(&thing.aid)
    }

    fn is_below(&self, a: &Entry, b: &Entry) -> bool {
        a.aid.is_below(&b.aid)
    }

    ghost total = { λ _. on_total (λ entry. entry.aid) nat_list_cmp_total };
}

impl Search<LoadFile> for Following<'_> {
    ghost fits = { λ following file. is_above (option_copied following.after) file.aid };

    ghost order = { λ _ a b. aid_order a.aid b.aid };

    fn fits(&self, thing: &LoadFile) -> bool {
        self.has(&thing.aid)
    }

    fn is_below(&self, a: &LoadFile, b: &LoadFile) -> bool {
        a.aid.is_below(&b.aid)
    }

    ghost total = { λ _. on_total (λ file. file.aid) nat_list_cmp_total };
}

/// The thing of this kind with the least AID above `after`, or with the least of all. AIDs are in
/// byte order, a prefix first.
pub fn next_after(tables: &Tables, kind: Kind, after: Option<&Aid>) -> Option<Found>
    requires entries { vec_len tables.now.entries ≡ ENTRIES }
    requires files { vec_len tables.now.files ≡ FILES }
    ensures some { IfSome result (IsNext tables.now kind (option_copied after.entry)) }
    ensures none { IfNone result (NoneFollows tables.now kind (option_copied after.entry)) }
{
    let following = Following { after };
    match kind {
        Kind::Issuer => match least(&tables.entries[..1], &following) {
            Some(found) => Some(Found::Entry(found.slot)),
            None => None,
        },
        Kind::Entries => match least(&tables.entries[1..], &following) {
            Some(found) => Some(Found::Entry(found.slot + 1)),
            None => None,
        },
        Kind::Files => match least(&tables.files, &following) {
            Some(found) => Some(Found::File(found.slot)),
            None => None,
        },
    }
}
