//! LOAD: a block of the Executable Load File that comes, and with the last one the file is there (GlobalPlatform Card
//! Specification 2.3.1, 9.3.5 and 11.6).

ghost use Rattle.std.specs.Prelude.{◌≡◌, ◌≤◌, ℕ, List, [], IfOk, IfErr, IfSome, OnErr, OnOk, Some, None, length, true};
ghost use Rattle.card_core.specs.Prelude.{ActsIn, Admitted, AreCards, AreFree, AreRoomy, FindsConfirmer, ForBlock, ForLoad, Holds, IsBlockTaken, IsFirst, IsInOrder, IsWellFormed, LoadFails, LoadsAs, MayReceipt, RepresentsSome, block_in, block_rule, delegated_management, kept_of, load_rules, with_due};
ghost use Rattle.policy_rules.specs.declared.request.Request.TheVariants.{Load};
ghost use Rattle.scp03_card.specs.declared.close.TheConstants.{DATA_LIMIT};

use crate::channels::Channels;
use crate::loaded_file::add_loaded;
use crate::reply::{Answer, Reply};
use apdu_core::Status;
use card_types::Tables;
use flash_core::Flash;
use load_session::{BlockStop, LoadSession, Taken};
use policy_rules::{LoadName, LoadRequest, Rule, RuleLO, judge_load, judge_loaded_by};
use rec_store::Records;

/// What the judgement of a block found: what it brings, and with the last one the slot of the domain that confirms the command, or
/// none where nobody does.
#[derive(Clone, Copy)]
struct Judged {
    taken: Taken,
    receipter: Option<u8>,
}

// The rule of a block that is not taken.
fn rule_of(stop: BlockStop) -> RuleLO
    ensures { result ≡ block_rule stop }
{
    match stop {
        BlockStop::FirstBlock => RuleLO::LO3,
        BlockStop::NoRoom => RuleLO::LO4,
        BlockStop::Count => RuleLO::LO5,
        BlockStop::Hash => RuleLO::LO6,
    }
}

// Judges a block after the rules on its number.
fn judge_block(
    tables: &Tables,
    session: &LoadSession,
    domain: u8,
    name: &LoadName,
    request: &LoadRequest<'_>,
) -> Result<Judged, Rule>
    requires in_order { IsInOrder tables.now }
    requires roomy { AreRoomy tables.now }
    ensures passed { ForBlock tables.now session.now name.now domain request.now (λ admitted. OnOk result (IsFirst (LoadFails admitted) load_rules None)) }
    ensures refused { ForBlock tables.now session.now name.now domain request.now (λ admitted. IfErr result (λ rule. IsFirst (LoadFails admitted) load_rules (Some rule))) }
    ensures taken { IfOk result (λ judged. IsBlockTaken tables.now session.now (block_in request.now) judged.taken) }
    ensures receipter { (page : ℕ → List ℕ) (admitted : Admitted) → ActsIn page tables.now domain admitted → request.now.last ≡ true
        → IfOk result (λ judged. FindsConfirmer (Holds admitted delegated_management) tables.now admitted judged.receipter) }
    ensures able { IfOk result (λ judged. IfSome judged.receipter (MayReceipt tables.now)) }
{
    let taken = match session.judge_block(tables, request.last, request.block) {
        Ok(taken) => taken,
        Err(stop) => return Err(Rule::LO(rule_of(stop))),
    };
    if !request.last {
        return Ok(Judged {
            taken,
            receipter: None,
        });
    }
    let receipter = judge_loaded_by(tables, domain, name)?;
    Ok(Judged { taken, receipter })
}

/// Takes the block of a request, for the domain in a slot, where no rule refuses it. It commits nothing and writes nothing: the load
/// pages that are full then are those to be written.
#[inline(never)]
pub fn load<F: Flash>(
    records: &mut Records<F>,
    channels: &mut Channels,
    channel: u8,
    domain: u8,
    request: &LoadRequest<'_>,
    reply: &mut Reply,
) -> Answer
    requires live { records.old.live ≡ true }
    requires clean { records.old.staged ≡ [] }
    requires cards { AreCards records.old.tables }
    requires formed { IsWellFormed (Load request.now) }
    requires some { RepresentsSome (kept_of records.old.tables channels.old) }
    requires unwritten { channels.old.loading.writes.items ≡ [] }
    requires empty { reply.old.items ≡ [] }
    ensures done { ForLoad (kept_of records.old.tables channels.old) channel domain request.now (λ page admitted.
        LoadsAs admitted (with_due page channels.new.loading) records.new.tables channels.new.live channels.new.loading.session reply.new.items result) }
    ensures writes { AreFree records.old.tables channels.new.loading.writes.items }
    ensures sessions { channels.new.sessions ≡ channels.old.sessions }
    ensures cards { AreCards records.new.tables }
    ensures same { (records.new.flash ≡ records.old.flash) × (records.new.live ≡ true) }
    ensures refused { OnErr result ((records.new ≡ records.old) × (channels.new ≡ channels.old)) }
    ensures room { length reply.new.items ≤ DATA_LIMIT }
{
    let name = judge_load(records.tables(), &channels.live, channel, domain, request)?;
    let session = channels.loading.session.as_ref().unwrap();
    let judged = judge_block(records.tables(), session, domain, &name, request)?;
    let session = channels.loading.session.as_mut().unwrap();
    session.take_block(
        records.tables(),
        request.last,
        request.block,
        judged.taken,
        &mut channels.loading.writes,
    );
    if !request.last {
        channels.live.count_block();
        reply.push(0x00);
        return Ok(Status(0x9000));
    }
    let session = channels.loading.session.take().unwrap();
    add_loaded(records, session.finish(), judged.receipter, reply);
    channels.live.end_load(channel);
    Ok(Status(0x9000))
}
