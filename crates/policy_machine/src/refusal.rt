//! How a rule refuses a command (ISO/IEC 7816-4:2013, 5.6).

ghost use Rattle.std.specs.Prelude.{◌≡◌, ◌≤◌, length};
ghost use Rattle.policy_machine.specs.Refusal.{refusal};

use apdu_core::Status;
use std::marker::Model;

/// The name of a rule, and the status word of a command that it refuses.
#[derive(Drop)]
pub struct Refusal {
    name: &'static str,
    status: Status,
}

impl Model for Refusal {
    ghost use Rattle.std.specs.Prelude.{◌≤◌, length};
    ghost use Rattle.policy_machine.specs.Refusal.{Refusal, refusal};

    ghost Value = { Refusal };

    ghost view = { λ r. refusal r.name.now r.status.0 };

    ghost invariant = { λ r. length r.name.now ≤ 3 };
}

impl Refusal {
    /// Of a rule with a name of at most three letters and digits.
    pub fn new(name: &'static str, status: u16) -> Refusal
        requires { length name.now ≤ 3 }
        ensures { result ≡ refusal name.now status }
    {
        Refusal {
            name,
            status: Status(status),
        }
    }

    /// The rule's name.
    pub fn name(&self) -> &'static str
        ensures name { result.now ≡ self.now.name }
        ensures short { length result.now ≤ 3 }
    {
        self.name
    }

    /// The status word.
    pub fn status(&self) -> Status
        ensures { result.0 ≡ self.now.status }
    {
        self.status
    }
}
