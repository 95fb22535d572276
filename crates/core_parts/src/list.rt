//! Lists of addresses, which cells join and leave.
ghost use Rattle.std.specs.Prelude.{◌≡◌, IsTrue, IsOk, IfOk, OnOk, OnErr};
ghost use Rattle.core_parts.specs.Lists.{is_in, joined, left};
ghost use Rattle.core_parts.specs.Lists.{JoinedIsIn, JoiningLeavesOthers, JoiningIsAtTheEnd};
ghost use Rattle.core_parts.specs.Lists.{JoiningAgainChangesNothing, JoiningMakesNoRepeats};
ghost use Rattle.core_parts.specs.Lists.{LeftIsOut, OthersStay, LeavingGoesByParts};
ghost use Rattle.core_parts.specs.Lists.{LeavingOfNoneChangesNothing, LeavingMakesNoRepeats};

use crate::items::Items;
use tagged_word::NoMemory;

/// Puts an address at the end of a list, where it does not stand in it, and says whether it
/// stood there. Without memory the list stays as it was; where it stands there, none is wanted.
pub fn join(list: &mut Items<u32>, address: u32) -> Result<bool, NoMemory>
    ensures joined { OnOk result (list.new ≡ joined list.old address) }
    ensures stood { IfOk result (λ stood. stood ≡ is_in list.old address) }
    ensures there { IsTrue (is_in list.old address) → IsOk result }
    ensures err { OnErr result (list.new ≡ list.old) }
{
    if list.as_slice().contains(&address) {
        return Ok(true);
    }
    list.push(address)?;
    Ok(false)
}

/// Takes an address out of a list, wherever it stands there.
pub fn leave(list: &mut Items<u32>, address: u32)
    ensures { list.new ≡ left list.old address }
{
    list.list.retain(|other| *other != address);
}

/// What joining and leaving come to.
pub fn laws_of_lists()
    ensures joined_is_in { JoinedIsIn }
    ensures joining_leaves_others { JoiningLeavesOthers }
    ensures joining_is_at_the_end { JoiningIsAtTheEnd }
    ensures joining_again { JoiningAgainChangesNothing }
    ensures joining_makes_no_repeats { JoiningMakesNoRepeats }
    ensures left_is_out { LeftIsOut }
    ensures others_stay { OthersStay }
    ensures leaving_goes_by_parts { LeavingGoesByParts }
    ensures leaving_of_none { LeavingOfNoneChangesNothing }
    ensures leaving_makes_no_repeats { LeavingMakesNoRepeats }
{}
