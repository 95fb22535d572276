//! Laws of what the variables hold.
ghost use Rattle.handle_roots.specs.RootLaws.{RootsHoldOne, RootsHoldAgain, OtherRootsStay};
ghost use Rattle.handle_roots.specs.RootLaws.{OtherWordsStay, RootsKeepLength};

/// A variable holds one value at most. Once it is made to hold a value it holds that one, every
/// other variable holds what it held, and no word but its two root words changes.
pub fn laws_of_roots()
    ensures one { RootsHoldOne }
    ensures again { RootsHoldAgain }
    ensures others { OtherRootsStay }
    ensures beside { OtherWordsStay }
    ensures count { RootsKeepLength }
{}
