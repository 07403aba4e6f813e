//! The laws of the policy machine, as functions that do nothing when they run.

ghost use Rattle.std.specs.Prelude.{ℕ, List};
ghost use Rattle.policy_machine.specs.Prelude.{AlikeAreJudgedAlike, ChangesAreOpened, IsWholeTree, NumbersRise, NumbersRiseInRuns, OneForm, OneOutcome, OneRun, OpenedAreJudged, OthersAreChanges, PlacesAreForgotten, RefusalsDropOffers, Registry, RootsGetNothing, StartsSound, StepsKeepSound, TreesStay, TreesStayInRuns};

/// A card that is powered on is sound, and each step keeps it so.
pub fn steps_keep_sound()
    ensures start { StartsSound }
    ensures step { StepsKeepSound }
{}

/// At most one form of a command takes it.
pub fn one_form()
    ensures { OneForm }
{}

/// From one state the same bytes have at most one outcome, and the same inputs at most one run.
pub fn one_outcome()
    ensures step { OneOutcome }
    ensures run { OneRun }
{}

/// A command that is refused after the checks of class, channel and instruction leaves no offer on its channel.
pub fn refusals_drop_offers()
    ensures { RefusalsDropOffers }
{}

/// Whatever changes more than a sequence counter is a command with secure messaging that opens in the session of its channel, and
/// that no rule refuses.
pub fn changes_are_opened()
    ensures { ChangesAreOpened }
{}

/// What counts as a change of a registry: all that is another but for the numbers of sequence counters.
pub fn others_are_changes()
    ensures { (before after : Registry) → OthersAreChanges before after }
{}

/// A command that passes the checks of class, channel and instruction leaves no place in a listing on its channel, unless it is GET
/// STATUS.
pub fn places_are_forgotten()
    ensures { PlacesAreForgotten }
{}

/// Providers are apart: a command that acts for a domain without power over another one leaves the tree of that one as it was, but for
/// what a delegated extradition brings into it. So does a run of such commands. Into the tree of a root nothing is brought.
pub fn trees_stay()
    ensures step { TreesStay }
    ensures run { TreesStayInRuns }
    ensures root { RootsGetNothing }
    ensures whole { (registry : Registry) (domain : List ℕ) → IsWholeTree registry domain }
{}

/// A receipt number rises by one with each command that its domain confirms, and with no other.
pub fn numbers_rise()
    ensures step { NumbersRise }
    ensures run { NumbersRiseInRuns }
{}

/// A protected command that opens in the session of its channel comes to its own rules, unless the card is terminated. Of two commands
/// that are alike in what these rules look at the same one fails first. Of PUT KEY and EXTERNAL AUTHENTICATE that is not said: their
/// rules look at keys of the session or the offer.
pub fn own_rules_decide()
    ensures opened { OpenedAreJudged }
    ensures alike { AlikeAreJudgedAlike }
{}
