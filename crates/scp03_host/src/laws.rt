//! The laws of the two ends, as functions that do nothing when they run.

ghost use Rattle.scp03_host.specs.Agreement.{BeginAgreeing, GoOnAgreeing, OnePlainReply};

/// Two ends that stand for one session go on agreeing, over every list of commands and replies.
pub fn agreement()
    ensures started { BeginAgreeing }
    ensures kept { GoOnAgreeing }
{}

/// A reply gives at most one data field and status.
pub fn one_plain_reply()
    ensures { OnePlainReply }
{}
