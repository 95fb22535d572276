//! What words written in a weak map's own cells make of the heap and of its graph.
ghost use Rattle.ephemeron_table.specs.PairLaws.{WrittenPairsAreOwn, WrittenEntriesShow};

/// Where words of a weak map's own cells were written, and each pair comes from where it may, cells
/// stand in rows again, the change is the map's own, and the heap is whole.
pub fn laws_of_pairs()
    ensures own { WrittenPairsAreOwn }
{}

/// Where the pairs of all keys but one are kept, and that of this key is the one that was
/// put, a heap that showed a graph shows it with this key's entry put or removed.
pub fn laws_of_entries()
    ensures show { WrittenEntriesShow }
{}
