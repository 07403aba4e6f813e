//! INSTALL [for load]: a load session begins (GlobalPlatform Card Specification 2.3.1, 9.3.1 and 11.5).

ghost use Rattle.std.specs.Prelude.{◌≡◌, ◌≤◌, [], OnErr, length};
ghost use Rattle.card_core.specs.Prelude.{ForActingLive, IsInOrder, IsRequestOf, IsWellFormed, LoadsAs};
ghost use Rattle.policy_rules.specs.declared.request.Request.TheVariants.{InstallLoad};
ghost use Rattle.scp03_card.specs.declared.close.TheConstants.{DATA_LIMIT};

use crate::channels::Channels;
use crate::reply::{Answer, Reply};
use apdu_core::Status;
use arrayvec::ArrayVec;
use card_types::Tables;
use load_session::LoadSession;
use policy_rules::{LoadInstallRequest, LoadName, judge_request};

/// Begins the load session that a request asks for, for the domain in a slot, on the command's channel. Nothing is written yet.
#[inline(never)]
pub fn begin_load(
    tables: &Tables,
    channels: &mut Channels,
    channel: u8,
    domain: u8,
    request: &LoadInstallRequest<'_>,
    reply: &mut Reply,
) -> Answer
    requires in_order { IsInOrder tables.now }
    requires formed { IsWellFormed (InstallLoad request.now) }
    requires empty { reply.old.items ≡ [] }
    ensures done { ForActingLive tables.now channels.old.live domain (λ page admitted. channel ≡ admitted.channel → IsRequestOf (InstallLoad request.now) admitted.command
        → LoadsAs admitted page tables.now channels.new.live channels.new.loading.session reply.new.items result) }
    ensures writes { channels.new.loading.writes ≡ channels.old.loading.writes }
    ensures sessions { channels.new.sessions ≡ channels.old.sessions }
    ensures refused { OnErr result (channels.new ≡ channels.old) }
    ensures room { length reply.new.items ≤ DATA_LIMIT }
{
    let judged = judge_request(tables, &channels.live, domain, request)?;
    let mut hash = ArrayVec::new();
    hash.try_extend_from_slice(request.hash).unwrap();
    channels.live.begin_load(LoadName {
        channel,
        aid: request.file,
        domain: judged.found,
        next: 0,
    });
    let session = LoadSession::begin(request.file, judged.found, hash);
    channels.loading.session = Some(session);
    reply.push(0x00);
    Ok(Status(0x9000))
}
