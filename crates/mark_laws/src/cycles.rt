//! How a cycle ends and goes on.
ghost use Rattle.mark_laws.specs.Leads.{LedToIsBlack, SureIsBlack, BlackLeadsOn};
ghost use Rattle.mark_laws.specs.PageWords.{MainSoundStays, PagesTellAll, WholeIsMainSound};
ghost use Rattle.mark_laws.specs.Restarts.{RestartsStaySettled, RestartsStayWhole};

/// What words lead to is black at the end of a cycle, where none has a white target, and so is what the mutator is
/// sure of. With no seat out a black cell leads to cells that are not white, whatever waits. A scavenge between two
/// events leaves the world whole, and the mutator's part done but for what it promoted.
pub fn laws_of_cycles()
    ensures led { LedToIsBlack }
    ensures sure { SureIsBlack }
    ensures black { BlackLeadsOn }
    ensures restart { RestartsStayWhole }
    ensures settled { RestartsStaySettled }
{}

/// What is known of a world is known of each with the same words in its pages. Some of it is known of
/// the mutator's view alone, and the mutator's steps keep that.
pub fn laws_of_pages()
    ensures main { WholeIsMainSound }
    ensures stays { MainSoundStays }
    ensures alike { PagesTellAll }
{}
