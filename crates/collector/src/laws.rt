//! Laws of full collections, of cycles of marking, of full heaps, and of images.
ghost use Rattle.collector.specs.Born.{ExactIsBorn};
ghost use Rattle.collector.specs.CollectionLaws.{SweptAndScavengedIsCollected};
ghost use Rattle.collector.specs.Filled.{FullIsFilled};
ghost use Rattle.collector.specs.LastSweep.{SweptIsBorn, LastMarkingsAreBorn};
ghost use Rattle.collector.specs.Promoting.{ScavengesPromote, ScavengesKeepStarts};
ghost use Rattle.collector.specs.ImageLaws.{ImagesShow, ImagesAreBlank, ImagesKeepStores};
ghost use Rattle.collector.specs.ImageLaws.{ImagesHaveRooms, ImagesAreTight, ImagesKeepFree};
ghost use Rattle.collector.specs.ImageLaws.{ImagesStayStuck, ImagesAreExact, ImagesKeepDead};

/// An image shows each graph that the heap shows, and has no word but 0 where no cell stands. Each
/// object stands there where it stood, with a store of as many slots, and a command allocates as many
/// words on it as on the heap. It keeps only what is reached, if the heap does, and its pages have the
/// free runs of the heap. What is young is longer than each of these, if it is in the heap. It keeps exactly
/// what can be reached, and each dead word of a page is in one of these runs, if it is so in the heap.
pub fn laws_of_images()
    ensures show { ImagesShow }
    ensures blank { ImagesAreBlank }
    ensures stores { ImagesKeepStores }
    ensures rooms { ImagesHaveRooms }
    ensures tight { ImagesAreTight }
    ensures free { ImagesKeepFree }
    ensures stuck { ImagesStayStuck }
    ensures exact { ImagesAreExact }
    ensures dead { ImagesKeepDead }
{}

/// A heap that was marked, cleared and swept, and then scavenged so that all that lives is promoted,
/// keeps exactly what can be reached, and each live cell of a page stands where it stood; each other
/// word of a page is in a free run, and objects need no more room than before. Each page had a row of
/// free runs.
pub fn laws_of_collections()
    ensures { SweptAndScavengedIsCollected }
{}

/// A full collection leaves all that a collection has to leave which ends a cycle of marking, if nothing that was lost
/// when the cycle began can be reached. So nothing is kept that was lost then.
pub fn laws_of_cycles()
    ensures { ExactIsBorn }
{}

/// What is left after marked cells were swept, from any starts, is all that the end of a cycle has to leave, if what is
/// marked could be reached when the cycle began or was made since, and has no word that was dead then.
pub fn laws_of_last_sweeps()
    ensures { SweptIsBorn }
{}

/// So it is with what a last marking marks that is given kept cells alone to start at, if no kept cell of a page
/// has a word that was dead when the cycle opened.
pub fn laws_of_last_markings()
    ensures { LastMarkingsAreBorn }
{}

/// A scavenge of a heap that shows a graph is one over which an open cycle of marking goes on: it promotes
/// cells to the homes that are in pages, into words of free runs alone; and cells that helpers may be
/// reading, or that the mutator made black itself, stay where they stand.
pub fn laws_of_promotions()
    ensures promote { ScavengesPromote }
    ensures starts { ScavengesKeepStarts }
{}

/// In a heap that keeps exactly what can be reached, and into which so many words don't fit, survivors,
/// used words and these are over the young generation; and each page has a cell of an object that can
/// be reached, if these are not more than a page has.
pub fn laws_of_full_heaps()
    ensures { FullIsFilled }
{}
