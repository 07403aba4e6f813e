//! What an open channel holds besides its selection (GlobalPlatform Amendment D, chapter 5).

ghost use Rattle.std.specs.Prelude.{◌≡◌, ◌↔◌, IsTrue};
ghost use Rattle.card_core.specs.Kept.{IsOffered, without_offer_held};
ghost use Rattle.card_core.specs.declared.channel_session.ChannelSession.TheVariants as holding;

use crate::aes_offer::AesOffer;
use crate::aes_session::AesSession;

/// Nothing, an offer that the host has still to answer, or a session.
#[derive(Drop)]
pub enum ChannelSession {
    Nothing,
    Offered(AesOffer),
    Secured(AesSession),
}

impl ChannelSession {
    pub fn is_offered(&self) -> bool
        ensures { IsTrue result ↔ IsOffered self.now }
    {
        matches!(self, ChannelSession::Offered(_))
    }

    /// Ends what is held. Where nothing is, nothing is written. It is out of line, so that its callers have a small stack frame.
    #[inline(never)]
    pub fn end(&mut self)
        ensures { self.new ≡ holding.Nothing }
    {
        match self {
            ChannelSession::Nothing => {}
            _ => *self = ChannelSession::Nothing,
        }
    }

    /// Drops an offer. Anything else stays.
    pub fn drop_offer(&mut self)
        ensures { self.new ≡ without_offer_held self.old }
    {
        if self.is_offered() {
            self.end();
        }
    }
}
