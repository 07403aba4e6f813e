//! What a host has, between two lines (this profile's own).

ghost use Rattle.script_tool.specs.Prelude.{Host, RepresentsHost, after_reset, first_host};

use crate::channel_sessions::ChannelSessions;
use apdu_core::Status;
use card_types::FACTORY_KEY;
use script_lines::{Channel, Keys, OfSize, Tokens, Trio};

/// The channel of the next lines, the static keys of the next sessions, the tokens that commands carry, the sessions, and the
/// status printed last.
#[derive(Drop)]
pub struct HostState {
    pub channel: Channel,
    pub keys: Keys,
    pub tokens: Tokens,
    pub sessions: ChannelSessions,
    pub last: Option<Status>,
}

impl HostState {
    /// A host with the keys of the factory card, and without sessions.
    pub fn new() -> HostState
        ensures { RepresentsHost result first_host }
    {
        HostState {
            channel: Channel::Basic,
            keys: OfSize::Aes128(Trio {
                enc: FACTORY_KEY,
                mac: FACTORY_KEY,
                dek: FACTORY_KEY,
            }),
            tokens: Tokens::Absent,
            sessions: ChannelSessions::new(),
            last: None,
        }
    }

    /// Power off and on: the sessions end, and the channel is the basic one.
    pub fn reset(&mut self)
        ensures { (host : Host) → RepresentsHost self.old host → RepresentsHost self.new (after_reset host) }
    {
        self.channel = Channel::Basic;
        self.sessions = ChannelSessions::new();
    }
}
