//! SET STATUS of the card: the card goes to another life cycle state (GlobalPlatform Card Specification 2.3.1, 5.1 and 11.10).

ghost use Rattle.std.specs.Prelude.{refl};
ghost use Rattle.policy_rules.specs.declared.request.Request.TheVariants.{CardStatus};

use crate::managed_request::{Acting, ManagedRequest};
use crate::reply::{Answer, Reply};
use apdu_core::Status;
use flash_core::Flash;
use policy_rules::judge_card_status;
use rec_store::Records;

/// The card's life cycle state with this code.
#[derive(Clone, Copy)]
pub struct CardStatusRequest {
    pub life: u8,
}

impl<F: Flash> ManagedRequest<F> for CardStatusRequest {
    ghost request = { λ request. CardStatus request.life };

    #[inline(never)]
    fn manage(&self, records: &mut Records<F>, acting: &Acting<'_>, _reply: &mut Reply) -> Answer {
        let life = judge_card_status(records.tables(), acting.domain, self.life)?;
        records.set_card_life(life);
        Ok(Status(0x9000))
    }

    ghost changes = { λ these. refl };
}
