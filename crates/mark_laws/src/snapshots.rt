//! What helpers have read of grey cells stays true to them.
ghost use Rattle.mark_laws.specs.Snapshots.{SnapsStay};

/// No possible event leaves a snap of a grey cell that is not true to it.
pub fn laws_of_snapshots()
    ensures { SnapsStay }
{}
