//! Laws of live cells: they are those of what can be reached, and so are the pairs of weak maps; and
//! of heaps that keep nothing else.
ghost use Rattle.live_cells.specs.Census.{KeepsTheCensus};
ghost use Rattle.live_cells.specs.Cleared.{LiveMapsTell, LiveIsClosed, TakenPairsLeaveLive};
ghost use Rattle.live_cells.specs.Counts.{MapsHaveReachedKeys, ExactMapsHaveNoOthers, ExactMapsAreFull};
ghost use Rattle.live_cells.specs.Fitting.{NoRunFitsNone, RunsFit, SweptDeadIsFree, MovedDeadIsFree};
ghost use Rattle.live_cells.specs.Keeping.{MovesForReached, LiveIsForReached, SweptKeepsNoOther};
ghost use Rattle.live_cells.specs.Keeping.{MovedKeepsNoOther, TightIsExact, MovedIsExact};
ghost use Rattle.live_cells.specs.Laws.{LiveIsReached, ReachedIsMarked, ReachedIsLive};
ghost use Rattle.live_cells.specs.Laws.{ReachedSlotsLeadOn, ReachedEntriesLeadOn};
ghost use Rattle.live_cells.specs.Starts.{MapsTellFromStarts, LiveIsClosedFromStarts, TakenPairsLeaveStarts};

/// A cell that is live from what root words refer to is the place of an object that can be reached,
/// or a store, a table or a box that such an object names. A set of addresses that has what root
/// words refer to, and what its cells lead to, has the place of each object that can be reached; so
/// a list of just the live cells has it. Where each key of a live weak map is live, so is each key of
/// a live table; and then what any slot of a live cell refers to is live. The same cells are live
/// where pairs of weak maps were taken away whose key is not. What belongs to objects that can be
/// reached is closed, along slots that marking visits and along pairs of weak tables.
pub fn laws_of_live_cells()
    ensures live { LiveIsReached }
    ensures marked { ReachedIsMarked }
    ensures reached { ReachedIsLive }
    ensures maps { LiveMapsTell }
    ensures closed { LiveIsClosed }
    ensures taken { TakenPairsLeaveLive }
    ensures slots { ReachedSlotsLeadOn }
    ensures entries { ReachedEntriesLeadOn }
{}

/// Of what is live from root words and from cells that a marking was given, none of them a weak
/// table, the same holds: keys of live maps tell of those of live tables, what is live is closed
/// then, and pairs that are taken away leave it as it is.
pub fn laws_of_starts()
    ensures maps { MapsTellFromStarts }
    ensures closed { LiveIsClosedFromStarts }
    ensures taken { TakenPairsLeaveStarts }
{}

/// A weak map that can be reached has at least as many pairs as entries whose key can be reached. In
/// a heap that keeps exactly what can be reached it has just as many; so a command that finds its map
/// full there is a fault in the graph too. A heap that keeps nothing else has as many objects' cells,
/// and its weak maps as many pairs, as the census tells.
pub fn laws_of_counts()
    ensures at_least { MapsHaveReachedKeys }
    ensures exact { ExactMapsHaveNoOthers }
    ensures full { ExactMapsAreFull }
    ensures census { KeepsTheCensus }
{}

/// A moved heap keeps nothing but what can be reached, where all that stays is kept for that. So it
/// is where just the live cells stay in their places, and when such a heap is moved again. It keeps
/// exactly what can be reached, where each young cell is reached, or came from one that was.
pub fn laws_of_exact_heaps()
    ensures of_reached { MovesForReached }
    ensures live { LiveIsForReached }
    ensures swept { SweptKeepsNoOther }
    ensures moved { MovedKeepsNoOther }
    ensures tight { TightIsExact }
    ensures young { MovedIsExact }
{}

/// Where each dead word of a page is in a free run, words fit nowhere that no run has and for which
/// there is no room beside survivors and used words; and those that a run has fit. Each dead word
/// is in a free run where just the live cells stay in their places, and when such a heap is moved.
pub fn laws_of_fitting()
    ensures nowhere { NoRunFitsNone }
    ensures runs { RunsFit }
    ensures swept { SweptDeadIsFree }
    ensures moved { MovedDeadIsFree }
{}
