//! What a card keeps of its logical channels, until power is lost (GlobalPlatform Card Specification 2.3.1, chapter 6).

ghost use Rattle.std.specs.Prelude.{◌≡◌, ◌<◌, [], length};
ghost use Rattle.card_core.specs.Prelude.{channels_refused, channels_with, first_live, no_sessions};

use crate::channel_session::ChannelSession;
use crate::loading::Loading;
use policy_rules::{CHANNELS, Live, Rule};
use std::array;

/// The logical channels, and the load session that is on one of them.
#[derive(Drop)]
pub struct Channels {
    /// As the rules see them: what is selected on each, its place in a listing, and what names the load session.
    pub live: Live,

    /// The offer or the session that each has, if it has one.
    pub sessions: [ChannelSession; CHANNELS],

    /// The load session with its bytes, and the load pages that the command at hand fills.
    pub loading: Loading,
}

impl Channels {
    /// After power on or reset: channel 0 alone is open, with the Issuer Security Domain selected, and there is no session.
    pub fn powered_on() -> Channels
        ensures live { result.live ≡ first_live }
        ensures sessions { result.sessions ≡ no_sessions }
        ensures writes { result.loading.writes.items ≡ [] }
    {
        Channels {
            live: Live::powered_on(),
            sessions: array::from_fn(|_| ChannelSession::Nothing),
            loading: Loading::new(),
        }
    }

    /// An entry is selected on a channel, or the channel is closed, and all that it had ends.
    pub fn set_channel(&mut self, channel: u8, selected: Option<u8>)
        requires { channel < CHANNELS }
        ensures set { self.new ≡ channels_with self.old channel selected }
        ensures loading { self.new.loading ≡ self.old.loading }
        ensures four { length self.old.live.selected ≡ CHANNELS }
        ensures sessions { length self.old.sessions ≡ CHANNELS }
    {
        self.live.set_channel(channel, selected);
        self.sessions[usize::from(channel)].end();
    }

    /// A command on a channel is refused: this ends an offer there, and a load session that the rule does not keep.
    pub fn refuse(&mut self, rule: Rule, channel: u8)
        requires { channel < CHANNELS }
        ensures refused { self.new ≡ channels_refused self.old channel rule }
        ensures loading { self.new.loading ≡ self.old.loading }
        ensures sessions { length self.old.sessions ≡ CHANNELS }
    {
        self.sessions[usize::from(channel)].drop_offer();
        if !rule.keeps_load() {
            self.live.end_load(channel);
        }
    }
}
