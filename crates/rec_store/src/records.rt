//! The tables of a card over a device.

ghost use Rattle.std.specs.Prelude.{◌≡◌};
ghost use Rattle.rec_store.specs.StoredTables.{AreRoomy};

use card_types::Tables;
use flash_core::Flash;
use page_journal::PageStore;
use std::marker::Model;

/// The tables of a card, with changes that are to be committed together, and the device that they are on.
#[derive(Drop)]
pub struct Records<F: Flash> {
    pub(crate) tables: Tables,
    pub(crate) store: PageStore<F>,
}

// Contracts see the device, the tables with all changes so far, the numbers of the staged pages, and whether no commit has
// failed.
impl<F: Flash> Model for Records<F> {
    ghost use Rattle.std.specs.Prelude.{◌≡◌, true, map};
    ghost use Rattle.rec_store.specs.Contents.{Contents};
    ghost use Rattle.rec_store.specs.Reopens.{NoLoadPage, current_page};
    ghost use Rattle.rec_store.specs.StoredTables.{AreRoomy, HoldsTables};
    ghost use Rattle.rec_store.specs.declared.store_layout.Layout.TheVariants.{Third};

    ghost Value = { Contents F };

    ghost view = { λ r. record { flash = r.store.flash; tables = r.tables; staged = map (λ page. page.0) r.store.staged; live = r.store.live } };

    ghost invariant = { λ r. AreRoomy r.tables × (r.store.settled ≡ true) × NoLoadPage r.store.staged
        × (F.tells → r.store.live ≡ true → HoldsTables Third (current_page r.store.staged (F.pages r.store.flash)) r.tables) };
}

impl<F: Flash> Records<F> {
    /// The tables, with all changes so far.
    pub fn tables(&self) -> &Tables
        ensures tables { result.now ≡ self.now.tables }
        ensures roomy { AreRoomy self.now.tables }
    {
        &self.tables
    }

    /// The device.
    pub fn into_flash(self) -> F
        ensures { result ≡ self.flash }
    {
        self.store.into_flash()
    }
}
