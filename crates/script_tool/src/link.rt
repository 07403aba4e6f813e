//! What a host sends commands over (this profile's own).

ghost use Rattle.std.specs.Prelude.{◌≡◌, ◌++◌, [], ◌∷◌, ℕ, List, Bool, true, false, OnOk, OnErr};
ghost use Rattle.faults.specs.Faults.{HasCause};
ghost use Rattle.policy_machine.specs.Run.{Input, Command, Reset};
ghost use Rattle.policy_machine.specs.State.{State, powered_on};
ghost use Rattle.script_tool.specs.Lead.{LeadsTo};
ghost use Rattle.script_tool.specs.Talk.{Answered, Event, Reset as PowerOff};

use arrayvec::ArrayVec;

/// The card could not answer.
#[derive(Clone, Copy, Debug, PartialEq, Eq)]
pub struct LinkFailed;

/// A way to a card. It is up until its first `LinkFailed`.
pub trait CardLink {
    // For which states of the policy machine it stands, where it tells them.
    ghost stands: { Self → State → Type 0 };

    // From which earlier time, from which state and by which commands and resets it has come to where it is, where it tells them.
    ghost came: { Self → Self → State → List Input → Type 0 };

    // Which events it has conveyed since an earlier time, and the same before a command that got no answer, where it tells them.
    ghost conveyed: { Self → Self → List Event → Type 0 };

    ghost refused: { Self → Self → List Event → List ℕ → Type 0 };

    // No command was refused.
    ghost up: { Self → Bool };

    // How many calls have failed.
    ghost faults: { Self → ℕ };

    /// Sends a short command. `reply` becomes the whole reply.
    fn send(&mut self, command: &[u8], reply: &mut ArrayVec<u8, 258>) -> Result<(), LinkFailed>
        requires up { up self.old ≡ true }
        ensures answered { (state : State) → stands self.old state
            → OnOk result ((after : State) × LeadsTo state command.now reply.new.items after × stands self.new after) }
        ensures sent { (start : Self) (first : State) (inputs : List Input) → came start self.old first inputs
            → came start self.new first (inputs ++ Command command.now ∷ []) }
        ensures conveyed { (start : Self) (events : List Event) → conveyed start self.old events
            → OnOk result (conveyed start self.new (events ++ Answered command.now reply.new.items ∷ [])) }
        ensures refused { (start : Self) (events : List Event) → conveyed start self.old events → OnErr result (refused start self.new events command.now) }
        ensures up { OnOk result (up self.new ≡ true) }
        ensures down { OnErr result (up self.new ≡ false) }
        ensures cause { HasCause (faults self.old) (faults self.new) result };

    /// Takes the card's power away and gives it back.
    fn reset(&mut self)
        requires up { up self.old ≡ true }
        ensures stands { (state : State) → stands self.old state → stands self.new (powered_on state.registry) }
        ensures sent { (start : Self) (first : State) (inputs : List Input) → came start self.old first inputs
            → came start self.new first (inputs ++ Reset ∷ []) }
        ensures conveyed { (start : Self) (events : List Event) → conveyed start self.old events → conveyed start self.new (events ++ PowerOff ∷ []) }
        ensures up { up self.new ≡ true }
        ensures quiet { faults self.new ≡ faults self.old };
}
