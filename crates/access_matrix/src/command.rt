//! The commands of deeds, and whether a card accepts them.

ghost use Rattle.std.specs.Prelude.{◌≡◌, ◌↔◌, [], ◌∷◌, IsTrue};
ghost use Rattle.access_matrix.specs.Prelude.{ArePrivilegeBytes, ForSaid, IsAid, IsDeedAccepted, IsInOrder, IsUsed, deletion_of, domain_aid, module_for, privileges_for, same_aid};
ghost use Rattle.access_matrix.specs.declared.deed.Deed.TheVariants as deed;
ghost use Rattle.card_types.specs.declared.factory.TheConstants.{FACTORY_FILE};

use crate::acceptance::live_with;
use crate::approval::{deletes_as_delegate, is_delegate, token_bytes, token_for};
use crate::free_aid::free_aid;
use bitflags::Flags;
use card_types::{Aid, FACTORY_FILE, FACTORY_MODULE, LifeMark, Privileges, Tables, in_slot};
use policy_rules::{
    DeletionRequest, EntryStatusRequest, ExtraditionRequest, InstallRequest, LoadInstallRequest,
    Signed, judge_entry_status, judge_request,
};
use tokens_receipts::{five_fields, four_fields, object_field};

/// Whether DELETE of the thing with an AID is accepted: with `related`, of an Executable Load File with what comes from it.
pub(crate) fn deletes(tables: &Tables, domain: u8, aid: Aid, related: bool) -> bool
    requires in_order { IsInOrder tables.now }
    requires domain { IsUsed tables.now domain }
    requires aid { IsAid aid }
    ensures { ForSaid tables.now (λ said. IsTrue result ↔ IsDeedAccepted said (domain_aid tables.now.entries.items domain) (deletion_of related aid)) }
{
    let before = object_field(&aid);
    let p2 = if related { 0x80 } else { 0x00 };
    let delegated = deletes_as_delegate(tables, domain);
    let token = token_for(tables, domain, delegated, 0x00, p2, &before);
    let signed = Signed {
        p1: 0x00,
        p2,
        before: &before,
        token: token_bytes(&token),
    };
    let request = DeletionRequest {
        aid,
        related,
        signed,
    };
    judge_request(tables, &live_with(domain), domain, &request).is_ok()
}

/// Whether SET STATUS of the entry in a slot, to its other lock mark, is accepted.
pub(crate) fn locks(tables: &Tables, domain: u8, slot: u8) -> bool
    requires in_order { IsInOrder tables.now }
    requires domain { IsUsed tables.now domain }
    requires entry { IsUsed tables.now slot }
    ensures { ForSaid tables.now (λ said.
        IsTrue result ↔ IsDeedAccepted said (domain_aid tables.now.entries.items domain) (deed.Lock (domain_aid tables.now.entries.items slot))) }
{
    let entry = in_slot(&tables.entries, slot).unwrap();
    let turned = LifeMark {
        life: entry.life.life,
        locked: !entry.life.locked,
    };
    let request = EntryStatusRequest {
        tree: false,
        life: turned.code(),
        aid: entry.aid,
    };
    judge_entry_status(tables, domain, &request).is_ok()
}

/// Whether INSTALL [for extradition] of the thing with an AID to the domain with another is accepted.
pub(crate) fn moves(tables: &Tables, domain: u8, aid: Aid, to: Aid) -> bool
    requires in_order { IsInOrder tables.now }
    requires domain { IsUsed tables.now domain }
    ensures { ForSaid tables.now (λ said. IsTrue result ↔ IsDeedAccepted said (domain_aid tables.now.entries.items domain) (deed.Move aid to)) }
{
    let before = five_fields(to.as_bytes(), &[], aid.as_bytes(), &[], &[]);
    let delegated = is_delegate(tables, domain);
    let token = token_for(tables, domain, delegated, 0x10, 0x00, &before);
    let signed = Signed {
        p1: 0x10,
        p2: 0x00,
        before: &before,
        token: token_bytes(&token),
    };
    let request = ExtraditionRequest { to, aid, signed };
    judge_request(tables, &live_with(domain), domain, &request).is_ok()
}

fn is_factory_file(aid: &Aid) -> bool
    ensures { result ≡ same_aid aid.now FACTORY_FILE }
{
    aid.as_bytes() == FACTORY_FILE.as_slice()
}

// The Module of what comes from an Executable Load File under an AID: the factory's, or one with the AID of what comes.
fn module_from(file: &Aid, aid: &Aid) -> Aid
    ensures { result ≡ module_for file.now aid.now }
{
    if is_factory_file(file) {
        Aid::new(&FACTORY_MODULE).unwrap()
    } else {
        *aid
    }
}

// Its privileges, and the byte that spells them.
fn privileges_from(file: &Aid) -> (Privileges, u8)
    ensures spelled { result.1 ∷ [] ≡ privileges_for file.now }
    ensures named { ArePrivilegeBytes result.0 (privileges_for file.now) }
{
    if is_factory_file(file) {
        (Privileges::SECURITY_DOMAIN, 0x80)
    } else {
        (Privileges::from_bits_retain(0), 0x00)
    }
}

/// Whether INSTALL [for install and make selectable] from the Executable Load File with an AID is accepted.
pub(crate) fn installs(tables: &Tables, domain: u8, file: Aid) -> bool
    requires in_order { IsInOrder tables.now }
    requires domain { IsUsed tables.now domain }
    ensures { ForSaid tables.now (λ said. IsTrue result ↔ IsDeedAccepted said (domain_aid tables.now.entries.items domain) (deed.Install file)) }
{
    let aid = free_aid(tables);
    let module = module_from(&file, &aid);
    let (privileges, spelled) = privileges_from(&file);
    let before = five_fields(
        file.as_bytes(),
        module.as_bytes(),
        aid.as_bytes(),
        &[spelled],
        &[0xC9, 0x00],
    );
    let delegated = is_delegate(tables, domain);
    let token = token_for(tables, domain, delegated, 0x0C, 0x00, &before);
    let signed = Signed {
        p1: 0x0C,
        p2: 0x00,
        before: &before,
        token: token_bytes(&token),
    };
    let request = InstallRequest {
        selectable: true,
        file,
        module,
        aid,
        privileges,
        signed,
    };
    judge_request(tables, &live_with(domain), domain, &request).is_ok()
}

/// Whether INSTALL [for load] of another Executable Load File is accepted.
pub(crate) fn loads(tables: &Tables, domain: u8) -> bool
    requires in_order { IsInOrder tables.now }
    requires domain { IsUsed tables.now domain }
    ensures { ForSaid tables.now (λ said. IsTrue result ↔ IsDeedAccepted said (domain_aid tables.now.entries.items domain) deed.Load) }
{
    let file = free_aid(tables);
    let before = four_fields(file.as_bytes(), &[], &[0; 32], &[]);
    let delegated = is_delegate(tables, domain);
    let token = token_for(tables, domain, delegated, 0x02, 0x00, &before);
    let signed = Signed {
        p1: 0x02,
        p2: 0x00,
        before: &before,
        token: token_bytes(&token),
    };
    let request = LoadInstallRequest {
        file,
        domain: None,
        hash: &[0; 32],
        signed,
    };
    judge_request(tables, &live_with(domain), domain, &request).is_ok()
}
