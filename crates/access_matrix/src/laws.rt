//! The laws of the matrix, as functions that do nothing when they run.

ghost use Rattle.access_matrix.specs.Prelude.{AcceptsAsJudged, NextRightsAreAll};

/// Rights that follow one another from the first on, up to one after which there is none, are all rights of a card, each once and in
/// order.
pub fn next_rights_are_all()
    ensures { NextRightsAreAll }
{}

/// A card accepts the command of a deed in a session of the domain exactly where none of the rules fails by which the deed is judged. It
/// is that command alone of which this is said, as `IsCommandOf` gives it, and only for one that opens in the session.
pub fn accepts_as_judged()
    ensures { AcceptsAsJudged }
{}
