//! What a helper may conclude from its own view.
ghost use Rattle.mark_laws.specs.OwnAddresses.{EmptyViewsHaveOldCells, NamedLieInPage, OldCellsStay};
ghost use Rattle.mark_laws.specs.OwnAddresses.{SpotsAreThere, TargetsAreOld};
ghost use Rattle.mark_laws.specs.OwnViews.{AllowedIsPossible, BoardRefersToOld, EmptyViewsAreOwn, GreySnapsNameCells};
ghost use Rattle.mark_laws.specs.OwnViews.{GreySnapsReadWhole};
ghost use Rattle.mark_laws.specs.OwnViews.{NamelessSnapsAreBlack, OwnViewsStay, ReachedIsOld};
ghost use Rattle.mark_laws.specs.Visits.{SettlingVisitsTargets, ShadedIsColoured};

/// A helper's view stays one that its steps make. In a sound world a step that it allows is possible, the snap of a
/// grey cell names it, and what is reached or stands on the board is old.
pub fn laws_of_views()
    ensures empty { EmptyViewsAreOwn }
    ensures stay { OwnViewsStay }
    ensures names { GreySnapsNameCells }
    ensures whole { GreySnapsReadWhole }
    ensures nameless { NamelessSnapsAreBlack }
    ensures visits { SettlingVisitsTargets }
    ensures shaded { ShadedIsColoured }
    ensures possible { AllowedIsPossible }
    ensures reached { ReachedIsOld }
    ensures board { BoardRefersToOld }
{}

/// The cells that a helper has in hand stay old, and each step that its view allows touches a word that is there.
pub fn laws_of_spots()
    ensures target { TargetsAreOld }
    ensures named { NamedLieInPage }
    ensures empty { EmptyViewsHaveOldCells }
    ensures stay { OldCellsStay }
    ensures spots { SpotsAreThere }
{}
