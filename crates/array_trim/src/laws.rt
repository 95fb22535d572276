//! What the words of a trim make of the graph that a heap shows.
ghost use Rattle.array_trim.specs.TrimLaws.{ShiftedListShows, TruncatedListShows};

/// Where the words of a trim were put for a list of a graph that the heap showed, and what is recorded
/// followed them, it shows the graph in which the list has the elements that stay. The list has the
/// capacity that was put; each other object keeps its own, and all stand where they stood.
pub fn laws_of_trims()
    ensures shift { ShiftedListShows }
    ensures truncate { TruncatedListShows }
{}
