//! Things of a card in the order of their AIDs.

ghost use Rattle.std.specs.Prelude.{◌&&◌, ℕ, IfSome, IfNone, option_copied};
ghost use Rattle.std.proofs.lemmas.Cmp.{nat_list_cmp_total, on_total};
ghost use Rattle.access_matrix.specs.Prelude.{HasDomain, HasEntry, HasFile, HasLayout, HasThing, IsNextByKey, NoneNext, aid_order, has, is_above, same_aid, security_domain};

use bitflags::Flags;
use card_types::{
    Aid, Entry, Following, Found, Privileges, Search, Tables, Wants, first_that, least,
};

// Security domains with an AID above the given one, if one is given.
#[derive(Drop)]
struct DomainsPast<'a> {
    past: Following<'a>,
}

impl Search<Entry> for DomainsPast<'_> {
    ghost fits = { λ domains entry. has security_domain entry.privileges && is_above (option_copied domains.past.after) entry.aid };

    ghost order = { λ _ a b. aid_order a.aid b.aid };

    fn fits(&self, thing: &Entry) -> bool {
        thing.privileges.contains(Privileges::SECURITY_DOMAIN) && self.past.has(&thing.aid)
    }

    fn is_below(&self, a: &Entry, b: &Entry) -> bool {
        a.aid.is_below(&b.aid)
    }

    ghost total = { λ _. on_total (λ entry. entry.aid) nat_list_cmp_total };
}

// The security domain with an AID.
#[derive(Drop)]
struct DomainWith<'a> {
    aid: &'a Aid,
}

impl Wants<Entry> for DomainWith<'_> {
    ghost fits = { λ domain entry. has security_domain entry.privileges && same_aid entry.aid domain.aid.now };

    fn fits(&self, thing: &Entry) -> bool {
        thing.privileges.contains(Privileges::SECURITY_DOMAIN) && thing.aid == *self.aid
    }
}

/// The slot of the security domain with this AID. An application is none.
pub fn find_domain(tables: &Tables, aid: &Aid) -> Option<u8>
    requires layout { HasLayout tables.now }
    ensures some { IfSome result (λ slot. HasDomain tables.now slot aid.now) }
    ensures none { IfNone result ((slot : ℕ) → HasDomain tables.now slot aid.now → ⊥) }
{
    match first_that(&tables.entries, &DomainWith { aid }) {
        Some(found) => Some(found.slot),
        None => None,
    }
}

/// The security domain with the least AID past the given one, or with the least of all.
pub fn next_domain(tables: &Tables, after: Option<&Aid>) -> Option<u8>
    requires layout { HasLayout tables.now }
    ensures some { IfSome result (IsNextByKey (HasDomain tables.now) aid_order (option_copied after.entry)) }
    ensures none { IfNone result (NoneNext (HasDomain tables.now) aid_order (option_copied after.entry)) }
{
    let domains = DomainsPast {
        past: Following { after },
    };
    match least(&tables.entries, &domains) {
        Some(found) => Some(found.slot),
        None => None,
    }
}

/// The entry with the least AID past the given one, or with the least of all.
pub fn next_entry(tables: &Tables, after: Option<&Aid>) -> Option<u8>
    requires layout { HasLayout tables.now }
    ensures some { IfSome result (IsNextByKey (HasEntry tables.now) aid_order (option_copied after.entry)) }
    ensures none { IfNone result (NoneNext (HasEntry tables.now) aid_order (option_copied after.entry)) }
{
    match least(&tables.entries, &Following { after }) {
        Some(found) => Some(found.slot),
        None => None,
    }
}

/// The Executable Load File with the least AID past the given one, or with the least of all.
pub fn next_file(tables: &Tables, after: Option<&Aid>) -> Option<u8>
    requires layout { HasLayout tables.now }
    ensures some { IfSome result (IsNextByKey (HasFile tables.now) aid_order (option_copied after.entry)) }
    ensures none { IfNone result (NoneNext (HasFile tables.now) aid_order (option_copied after.entry)) }
{
    match least(&tables.files, &Following { after }) {
        Some(found) => Some(found.slot),
        None => None,
    }
}

/// The thing with the least AID past the given one, or with the least of all.
pub fn next_thing(tables: &Tables, after: Option<&Aid>) -> Option<Found>
    requires layout { HasLayout tables.now }
    ensures some { IfSome result (IsNextByKey (HasThing tables.now) aid_order (option_copied after.entry)) }
    ensures none { IfNone result (NoneNext (HasThing tables.now) aid_order (option_copied after.entry)) }
{
    let following = Following { after };
    let entry = least(&tables.entries, &following);
    let file = least(&tables.files, &following);
    match (entry, file) {
        (Some(entry), Some(file)) => {
            if file.thing.aid.is_below(&entry.thing.aid) {
                Some(Found::File(file.slot))
            } else {
                Some(Found::Entry(entry.slot))
            }
        }
        (Some(entry), None) => Some(Found::Entry(entry.slot)),
        (None, Some(file)) => Some(Found::File(file.slot)),
        (None, None) => None,
    }
}
