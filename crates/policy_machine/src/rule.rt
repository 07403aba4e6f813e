//! The rules that refuse a command.

ghost use Rattle.std.specs.Prelude.{◌≡◌, ◌≤◌, length};
ghost use Rattle.policy_machine.specs.Prelude.{name_of, refusal_by, status_of};
ghost use Rattle.policy_machine.specs.Step.{keeps_load as keeps_load_by};

use crate::card_status::RuleSC;
use crate::delegation::{RuleRC, RuleTK};
use crate::delete_key::RuleDK;
use crate::delete_object::RuleDO;
use crate::entry_status::RuleSS;
use crate::external_authenticate::RuleEA;
use crate::extradition::RuleEX;
use crate::get_data::RuleGD;
use crate::get_status::RuleGS;
use crate::initialize_update::RuleIU;
use crate::install_application::RuleII;
use crate::install_load::RuleIL;
use crate::load::RuleLO;
use crate::make_selectable::RuleMS;
use crate::manage_channel::RuleMC;
use crate::management::RuleM;
use crate::put_key::RulePK;
use crate::refusal::Refusal;
use crate::select::RuleSE;
use crate::store_data::RuleSD;
use apdu_core::Status;

/// A rule of the policy, by its group. The rules of a command stand with the command.
#[derive(Clone, Copy, Debug, PartialEq, Eq)]
pub enum Rule {
    G(RuleG),
    PS(RulePS),
    M(RuleM),
    SE(RuleSE),
    MC(RuleMC),
    GD(RuleGD),
    IU(RuleIU),
    EA(RuleEA),
    PK(RulePK),
    DK(RuleDK),
    SD(RuleSD),
    II(RuleII),
    IL(RuleIL),
    MS(RuleMS),
    EX(RuleEX),
    DO(RuleDO),
    SC(RuleSC),
    SS(RuleSS),
    GS(RuleGS),
    LO(RuleLO),
    TK(RuleTK),
    RC(RuleRC),
}

/// The rules that every command passes first.
#[derive(Clone, Copy, Debug, PartialEq, Eq)]
pub enum RuleG {
    /// The bytes are no short command.
    G1,
    /// The class byte is none that the card takes.
    G2,
    /// The channel is closed.
    G3,
    /// The class has no such instruction, or the selected application does not take it.
    G4,
    /// The card is terminated.
    G5,
    /// Card content management has no secure messaging, or secure messaging no session.
    G6,
    /// The C-MAC is missing or wrong.
    G7,
    /// The data field can't be deciphered.
    G8,
}

/// The rules on the form of a command.
#[derive(Clone, Copy, Debug, PartialEq, Eq)]
pub enum RulePS {
    /// P1 and P2 are none that the instruction takes.
    P,
    /// The data field is none that the instruction takes.
    S,
}

impl Rule {
    /// The rule's name, and the status word of a command that it refuses.
    pub fn refusal(&self) -> Refusal
        ensures { result ≡ refusal_by self.now }
    {
        match self {
            Rule::G(RuleG::G1) => Refusal::new("G1", 0x6700),
            Rule::G(RuleG::G2) => Refusal::new("G2", 0x6E00),
            Rule::G(RuleG::G3) => Refusal::new("G3", 0x6881),
            Rule::G(RuleG::G4) => Refusal::new("G4", 0x6D00),
            Rule::G(RuleG::G5) => Refusal::new("G5", 0x6985),
            Rule::G(RuleG::G6) => Refusal::new("G6", 0x6982),
            Rule::G(RuleG::G7) => Refusal::new("G7", 0x6982),
            Rule::G(RuleG::G8) => Refusal::new("G8", 0x6982),
            Rule::PS(RulePS::P) => Refusal::new("P", 0x6A86),
            Rule::PS(RulePS::S) => Refusal::new("S", 0x6A80),
            Rule::M(rule) => rule.refusal(),
            Rule::SE(rule) => rule.refusal(),
            Rule::MC(rule) => rule.refusal(),
            Rule::GD(rule) => rule.refusal(),
            Rule::IU(rule) => rule.refusal(),
            Rule::EA(rule) => rule.refusal(),
            Rule::PK(rule) => rule.refusal(),
            Rule::DK(rule) => rule.refusal(),
            Rule::SD(rule) => rule.refusal(),
            Rule::II(rule) => rule.refusal(),
            Rule::IL(rule) => rule.refusal(),
            Rule::MS(rule) => rule.refusal(),
            Rule::EX(rule) => rule.refusal(),
            Rule::DO(rule) => rule.refusal(),
            Rule::SC(rule) => rule.refusal(),
            Rule::SS(rule) => rule.refusal(),
            Rule::GS(rule) => rule.refusal(),
            Rule::LO(rule) => rule.refusal(),
            Rule::TK(rule) => rule.refusal(),
            Rule::RC(rule) => rule.refusal(),
        }
    }

    /// The status word of a command that the rule refuses.
    pub fn status(&self) -> Status
        ensures { result.0 ≡ status_of self.now }
    {
        self.refusal().status()
    }

    /// Whether a command that the rule refuses leaves the load session of its channel, so that the host may go on with it.
    pub fn keeps_load(&self) -> bool
        ensures { result ≡ keeps_load_by self.now }
    {
        matches!(self, Rule::PS(RulePS::P) | Rule::LO(RuleLO::LO2))
    }

    /// The rule's name, of at most three letters and digits.
    pub fn name(&self) -> &'static str
        ensures name { result.now ≡ name_of self.now }
        ensures short { length result.now ≤ 3 }
    {
        self.refusal().name()
    }
}
