//! The verbs over lines.

/// What is done with the reply to a command.
#[derive(Clone, Copy)]
pub enum Verb {
    /// It is written.
    Run,

    /// It is written, and why the command was refused.
    Why,

    /// It is compared with the one that a line wants, and a difference is written.
    Replay,

    /// The lines are those of a script: a host sends the commands, and what each line prints is written.
    Play,
}
