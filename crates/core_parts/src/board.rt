//! One step at a word of the board: a cell is given to it, or taken from it.
ghost use Rattle.std.specs.Prelude.{◌≡◌, ◌<◌, length, slice_index, slice_set, IfOk, OnOk, OnErr};
ghost use Rattle.core_parts.specs.Boards.{given_word, giver_left, taken_word, taker_joined};
ghost use Rattle.core_parts.specs.Boards.{GivenStands, LostGiveChangesNothing, GivenIsTaken};
ghost use Rattle.core_parts.specs.Boards.{TakenIsEmptied, TakenOfNoneChangesNothing, BoardsStayBoards};
ghost use Rattle.core_parts.specs.Boards.{empty_board, EmptyIsBoard};

use crate::items::Items;
use crate::list::{join, leave};
use crate::note::Note;
use page_space::BOARD_WORDS;
use std::alloc::Global;
use tagged_word::{NoMemory, Word};

/// A board with no cell: 64 words that are 0.
pub fn empty_board(alloc: Global) -> Result<Items<u64>, NoMemory>
    ensures { IfOk result (λ board. board ≡ empty_board) }
{
    let words = vec![in alloc; 0u64; BOARD_WORDS as usize]?;
    Ok(Items::from_vec(words))
}

/// Gives a cell to a word of the board, where it is 0: then the cell leaves the giver's list. A word
/// that is not 0 stays, and so does the list. The note says which word it was.
pub fn give(board: &mut Items<u64>, list: &mut Items<u32>, place: u32, address: u32) -> Note
    requires { place < length board.old }
    ensures note { result ≡ Note.Gave place (slice_index board.old place) }
    ensures word { board.new ≡ slice_set board.old place
        (given_word (slice_index board.old place) address) }
    ensures list { list.new ≡ giver_left list.old (slice_index board.old place) address }
{
    let found = board.as_slice()[place as usize];
    if found == 0 {
        board.set(place as usize, Word::reference(address).0);
        leave(list, address);
    }
    Note::Gave { place, found }
}

/// Takes what a word of the board holds: it becomes 0, and a cell that it referred to joins the
/// taker's list. The note says which word it was. Without memory nothing changes.
pub fn take(board: &mut Items<u64>, list: &mut Items<u32>, place: u32) -> Result<Note, NoMemory>
    requires { place < length board.old }
    ensures note { IfOk result (λ note. note ≡ Note.Took place (slice_index board.old place)) }
    ensures word { OnOk result (board.new ≡ slice_set board.old place
        (taken_word (slice_index board.old place))) }
    ensures list { OnOk result (list.new ≡ taker_joined list.old (slice_index board.old place)) }
    ensures board_at_err { OnErr result (board.new ≡ board.old) }
    ensures list_at_err { OnErr result (list.new ≡ list.old) }
{
    let found = board.as_slice()[place as usize];
    // The cell joins first: after the word is 0, want of memory would lose it.
    if let Some(address) = Word(found).address() {
        join(list, address)?;
    }
    board.set(place as usize, 0);
    Ok(Note::Took { place, found })
}

/// What giving and taking come to.
pub fn laws_of_boards()
    ensures given_stands { GivenStands }
    ensures lost_give { LostGiveChangesNothing }
    ensures given_is_taken { GivenIsTaken }
    ensures taken_is_emptied { TakenIsEmptied }
    ensures taken_of_none { TakenOfNoneChangesNothing }
    ensures empty_is_board { EmptyIsBoard }
    ensures boards_stay_boards { BoardsStayBoards }
{}
