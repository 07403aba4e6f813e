//! What comes of a line (this profile's own).

use apdu_core::Status;

/// What a line printed.
#[derive(Clone, Copy, Debug, PartialEq, Eq)]
pub enum Played {
    /// Nothing.
    Quiet,

    /// A status, with or without more.
    Answer(Status),

    /// Something else: there is no session, a data field is too long, or a reply could not be read.
    Note,

    /// That the status printed last is not the one that was wanted.
    WantDiffers,
}

/// Why a line was not played to its end.
#[derive(Clone, Copy, Debug, PartialEq, Eq)]
pub enum StepStop {
    /// The line of this number is malformed. Nothing was sent.
    Form(u32),

    /// The card could not answer.
    LinkFailed,
}
