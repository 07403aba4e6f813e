//! SELECT: an entry is selected on a channel (GlobalPlatform Card Specification 2.3.1, 11.9 and chapter 6).

ghost use Rattle.std.specs.Prelude.{◌≡◌, ◌≤◌, ◌<◌, [], length};
ghost use Rattle.card_core.specs.Prelude.{CarriesOutBut, ForKept, IsControlInformation, IsInOrder, IsRequestOf, kept_of};
ghost use Rattle.policy_machine.specs.Select.{selected_status as status_by};
ghost use Rattle.policy_rules.specs.declared.request.Request.TheVariants.{Select};
ghost use Rattle.scp03_card.specs.declared.close.TheConstants.{DATA_LIMIT};

use crate::channels::Channels;
use crate::reply::{Answer, Reply};
use apdu_core::Status;
use arrayvec::ArrayVec;
use card_types::{CardLife, Tables};
use policy_rules::{CHANNELS, Rule, judge_select};

/// The tag of a template of file control information.
const CONTROL_INFORMATION: u8 = 0x6F;

/// The tag of the AID in it.
const NAME: u8 = 0x84;

/// What stands in it after the AID: the proprietary data, with the tag of the longest data field of a command and that length.
const PROPRIETARY: [u8; 6] = [0xA5, 0x04, 0x9F, 0x65, 0x01, 0xFF];

// The file control information of an entry. An AID is short, so each length has one byte.
fn write_control_information(aid: &[u8], reply: &mut Reply)
    requires aid { length aid.now ≤ 16 }
    requires empty { reply.old.items ≡ [] }
    ensures written { IsControlInformation aid.now reply.new.items }
    ensures short { length reply.new.items ≤ 60 }
{
    let size = aid.len() as u8;
    let front = [CONTROL_INFORMATION, size + 8, NAME, size];
    reply.try_extend_from_slice(&front).unwrap();
    reply.try_extend_from_slice(aid).unwrap();
    reply.try_extend_from_slice(&PROPRIETARY).unwrap();
}

fn selected_status(card_life: CardLife) -> Status
    ensures { result.0 ≡ status_by card_life }
{
    if card_life == CardLife::Locked {
        Status(0x6283)
    } else {
        Status(0x9000)
    }
}

/// Selects the entry that fits a partial AID, and answers its file control information.
pub fn select(
    tables: &Tables,
    channels: &mut Channels,
    channel: u8,
    partial: &[u8],
    reply: &mut Reply,
) -> Answer
    requires in_order { IsInOrder tables.now }
    requires channel { channel < CHANNELS }
    requires empty { reply.old.items ≡ [] }
    ensures done { ForKept (kept_of tables.now channels.old) (λ page admitted. channel ≡ admitted.channel → IsRequestOf (Select partial.entry) admitted.command
        → CarriesOutBut page admitted (kept_of tables.now channels.new) reply.new.items result) }
    ensures writes { channels.new.loading.writes ≡ channels.old.loading.writes }
    ensures room { length reply.new.items ≤ DATA_LIMIT }
{
    match judge_select(tables, partial) {
        Ok(found) => {
            channels.set_channel(channel, Some(found.slot));
            write_control_information(found.thing.aid.as_bytes(), reply);
            Ok(selected_status(tables.life))
        }
        Err(rule) => Err(Rule::SE(rule)),
    }
}
