//! The digest of an Executable Load File (GlobalPlatform Card Specification 2.3.1, 11.6 and C.2).

ghost use Rattle.std.specs.Prelude.{◌≡◌, ◌<◌, ◌≤◌, ◌++◌, ◌+◌, ◌/◌, ℕ, List, false, true, map, take, IfOk, IfSome, IsSome, OnErr, OnOk};
ghost use Rattle.std.specs.List.{concat};
ghost use Rattle.card_core.specs.Prelude.{CardRepresents, HasCause, Holds256, IsInLoadPages, IsLoadPage, IsLoadRead, LeavesOnly, Reopens, State, file_of, load_page, sha256, thing_in};

use crate::card::Card;
use card_types::{LoadFile, in_slot};
use flash_core::{Flash, FlashFailed, Page};
use rec_store::Records;
use sha2::{Digest, Sha256};

// Feeds a hasher the first bytes of a load page.
fn feed_page<F: Flash>(
    records: &mut Records<F>,
    page: u16,
    count: usize,
    hasher: &mut Sha256,
) -> Result<(), FlashFailed>
    requires live { records.old.live ≡ true }
    requires range { IsLoadPage page }
    requires count { count ≤ 256 }
    ensures fed { F.tells → (message : List ℕ) → Holds256 hasher.old message
        → OnOk result (Holds256 hasher.new (message ++ take count (load_page (F.pages records.old.flash) page))) }
    ensures read { IsLoadRead F.Flash records.old records.new }
    ensures cause { HasCause (F.faults records.old.flash) (F.faults records.new.flash) result }
{
    let mut into = Page { bytes: [0; 256] };
    records.read_load(page, &mut into)?;
    hasher.update(&into.bytes[..count]);
    Ok(())
}

// The digest of a file, read page by page.
fn digest_of<F: Flash>(records: &mut Records<F>, file: LoadFile) -> Result<[u8; 32], FlashFailed>
    requires live { records.old.live ≡ true }
    requires file { IsInLoadPages file }
    ensures digest { F.tells → IfOk result (λ digest.
        digest ≡ sha256 (take file.len (concat (map (load_page (F.pages records.old.flash)) (take ((file.len + 255) / 256) file.pages))))) }
    ensures read { IsLoadRead F.Flash records.old records.new }
    ensures cause { HasCause (F.faults records.old.flash) (F.faults records.new.flash) result }
{
    let len = usize::from(file.len);
    let mut hasher = Sha256::new();
    for index in 0..len.div_ceil(256) {
        let count = (len - 256 * index).min(256);
        feed_page(records, file.pages[index], count, &mut hasher)?;
    }
    Ok(hasher.finalize())
}

impl<F: Flash> Card<F> {
    /// SHA-256 (FIPS 180-4) over the bytes of the Executable Load File in a slot.
    pub fn file_digest(&mut self, slot: u8) -> Result<[u8; 32], FlashFailed>
        requires live { self.old.live ≡ true }
        requires used { IsSome (thing_in self.old.tables.files.items slot) }
        ensures digest { F.tells → IfOk result (λ digest. IfSome (thing_in self.old.tables.files.items slot)
            (λ file. digest ≡ sha256 (file_of (load_page (F.pages self.old.flash)) self.old.tables.entries.items file).bytes)) }
        ensures same { (self.new.tables ≡ self.old.tables) × (self.new.channels ≡ self.old.channels) }
        ensures pages { F.tells → F.pages self.new.flash ≡ F.pages self.old.flash }
        // Power lost at any moment leaves the registry.
        ensures moments { F.tells → (state : State) → CardRepresents F.Flash self.old state
            → LeavesOnly F.Flash self.old.flash self.new.flash (λ outcome. Reopens outcome state.registry) }
        ensures stands { (state : State) → CardRepresents F.Flash self.old state → OnOk result (CardRepresents F.Flash self.new state) }
        ensures ok { OnOk result (self.new.live ≡ true) }
        ensures failed { OnErr result (self.new.live ≡ false) }
        ensures cause { HasCause (F.faults self.old.flash) (F.faults self.new.flash) result }
    {
        let file = *in_slot(&self.records.tables().files, slot).unwrap();
        match digest_of(&mut self.records, file) {
            Ok(digest) => Ok(digest),
            Err(failed) => {
                self.live = false;
                Err(failed)
            }
        }
    }
}
