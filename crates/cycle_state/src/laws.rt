//! What the world of marking reads of a heap's pages, and what commands may do to a cell of a page.
ghost use Rattle.cycle_state.specs.ClaimLaws.{GoesOnItself, GoesOnAgain, EventsGoOn, GoesOnAlong, MomentsGoOn};
ghost use Rattle.cycle_state.specs.ClaimLaws.{PageCellsAreClaimed};
ghost use Rattle.cycle_state.specs.ClaimLaws.{ClaimsGoOn, TargetsGoOn, ClaimsAllowSlots, ClaimsAllowOwned};
ghost use Rattle.cycle_state.specs.ClaimLaws.{ClaimsAllowHeaders, ClaimsAllowCells};
ghost use Rattle.cycle_state.specs.Laws.{PageCellsAreRead, PageWordsAreRead};

/// What marking reads at a cell of a page is that cell, and at each offset of it the word there.
pub fn laws_of_page_cells()
    ensures cells { PageCellsAreRead }
    ensures words { PageWordsAreRead }
{}

/// A world goes on to another one through events, whoever takes part in them. Where a heap rests in a
/// cycle, the words of each cell of a page are claimed, and they stay so while the world goes on; so do
/// targets that are born, or of which the mutator is sure.
pub fn laws_of_going_on()
    ensures itself { GoesOnItself }
    ensures again { GoesOnAgain }
    ensures events { EventsGoOn }
    ensures along { GoesOnAlong }
    ensures moments { MomentsGoOn }
    ensures cells { PageCellsAreClaimed }
    ensures stay { ClaimsGoOn }
    ensures targets { TargetsGoOn }
{}

/// What a step of marking asks of the mutator holds of the words of a claimed cell.
pub fn laws_of_claims()
    ensures slots { ClaimsAllowSlots }
    ensures owned { ClaimsAllowOwned }
    ensures headers { ClaimsAllowHeaders }
    ensures new { ClaimsAllowCells }
{}
