//! Room for the command at hand.

ghost use Rattle.std.specs.Prelude.{◌≡◌, None};

use policy_rules::Place;

/// What the command at hand needs room for. It is made once: made for each command, it would be set to zeros each time.
#[derive(Drop)]
pub struct Workspace {
    /// The data field in plain of a protected command, in the front.
    pub plain: [u8; 255],

    /// The place in a listing that GET STATUS has taken from its channel.
    pub place: Option<Place>,
}

impl Workspace {
    /// No command has come yet.
    pub fn new() -> Workspace
        ensures { result.place ≡ None }
    {
        Workspace {
            plain: [0; 255],
            place: None,
        }
    }
}
