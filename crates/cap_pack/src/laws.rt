//! The law of loading, as a function that does nothing when it runs.

ghost use Rattle.cap_pack.specs.FactoryLoads.{FactoryMayLoad};
ghost use Rattle.cap_pack.specs.Loads.{AlwaysLoadsWhole, LoadsWhole};

/// A card that may take an Executable Load File takes it whole, by the commands that load it, and no other run of them is there: from one
/// state the same inputs have at most one. The card that leaves the factory is one that may.
pub fn loads_whole()
    ensures whole { LoadsWhole }
    ensures always { AlwaysLoadsWhole }
    ensures factory { FactoryMayLoad }
{}
