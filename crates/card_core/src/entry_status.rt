//! SET STATUS of an application or a security domain: it is locked, unlocked or personalized, a domain also locked or unlocked
//! with all that is below it (GlobalPlatform Card Specification 2.3.1, 5.3 and 11.10).

ghost use Rattle.std.specs.Prelude.{◌≡◌, ℕ, List, [], true, IsSome, refl};
ghost use Rattle.card_core.specs.Prelude.{IsFreeOfLoops, IsOther, MakesChange, Registry, Represents, SaysChange, StagesOthers, Well, slot_of, thing_in};
ghost use Rattle.policy_rules.specs.declared.request.Request.TheVariants.{EntryStatus};

use crate::managed_request::{Acting, ManagedRequest};
use crate::reply::{Answer, Reply};
use apdu_core::Status;
use flash_core::Flash;
use policy_rules::{EntryStatusRequest, StatusChange, judge_entry_status};
use rec_store::Records;
use registry::{lock_tree, set_life};

// Makes a change that was judged.
fn make_change<F: Flash>(records: &mut Records<F>, change: StatusChange)
    requires live { records.old.live ≡ true }
    requires slot { IsSome (thing_in records.old.tables.entries.items (slot_of change)) }
    requires other { IsOther records.old.tables.entries.items change }
    requires no_loops { IsFreeOfLoops records.old.tables.entries.items }
    requires clean { records.old.staged ≡ [] }
    ensures made { MakesChange records.old.tables records.new.tables change }
    ensures said { (page : ℕ → List ℕ) (said : Registry) → Represents page records.old.tables said → Well said
        → SaysChange page said records.old.tables records.new.tables change }
    ensures staged { StagesOthers records.old.tables.entries.items records.new.tables.entries.items records.new.staged }
    ensures same { (records.new.flash ≡ records.old.flash) × (records.new.live ≡ true) }
{
    match change {
        StatusChange::One { entry, life } => set_life(records, entry, life),
        StatusChange::Tree { domain, locked } => lock_tree(records, domain, locked),
    }
}

impl<F: Flash> ManagedRequest<F> for EntryStatusRequest {
    ghost request = { λ request. EntryStatus request };

    #[inline(never)]
    fn manage(&self, records: &mut Records<F>, acting: &Acting<'_>, _reply: &mut Reply) -> Answer {
        let change = judge_entry_status(records.tables(), acting.domain, self)?;
        make_change(records, change);
        Ok(Status(0x9000))
    }

    ghost changes = { λ these. refl };
}
