//! MANAGE CHANNEL: a channel is opened or closed (GlobalPlatform Card Specification 2.3.1, 11.7).

ghost use Rattle.std.specs.Prelude.{◌≡◌, ◌≤◌, ◌<◌, [], length};
ghost use Rattle.card_core.specs.Prelude.{CarriesOutBut, ForKept, HasLayout, IsRequestOf, Kept, kept_live, kept_of};
ghost use Rattle.card_types.specs.declared.tables.Tables.{Tables};
ghost use Rattle.policy_rules.specs.declared.request.Request.TheVariants.{MoreChannel, LessChannel};
ghost use Rattle.scp03_card.specs.declared.close.TheConstants.{DATA_LIMIT};

use crate::channels::Channels;
use crate::reply::{Answer, Reply};
use apdu_core::Status;
use card_types::ISSUER_SLOT;
use policy_rules::{CHANNELS, Live, Rule, judge_more_channel};

/// Opens the lowest closed channel, with the Issuer Security Domain selected, and answers its number.
pub fn open_channel(live: &mut Live, reply: &mut Reply) -> Answer
    requires empty { reply.old.items ≡ [] }
    ensures done { (card : Kept) → HasLayout card.tables → ForKept (kept_live card live.old) (λ page admitted. admitted.channel < CHANNELS
        → IsRequestOf MoreChannel admitted.command → CarriesOutBut page admitted (kept_live card live.new) reply.new.items result) }
    ensures room { length reply.new.items ≤ DATA_LIMIT }
{
    match judge_more_channel(live) {
        Ok(number) => {
            live.selected[usize::from(number)] = Some(ISSUER_SLOT);
            reply.push(number);
            Ok(Status(0x9000))
        }
        Err(rule) => Err(Rule::MC(rule)),
    }
}

/// Closes a channel. A warning says that it was closed already.
pub fn close_channel(channels: &mut Channels, number: u8) -> Answer
    requires low { 1 ≤ number }
    requires high { number < CHANNELS }
    ensures done { (tables : Tables) → ForKept (kept_of tables channels.old) (λ page admitted. IsRequestOf (LessChannel number) admitted.command
        → CarriesOutBut page admitted (kept_of tables channels.new) [] result) }
    ensures writes { channels.new.loading.writes ≡ channels.old.loading.writes }
{
    if channels.live.selected[usize::from(number)].is_none() {
        return Ok(Status(0x6200));
    }
    channels.set_channel(number, None);
    Ok(Status(0x9000))
}
