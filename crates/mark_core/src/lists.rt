//! Lists of addresses that others join.
ghost use Rattle.std.specs.Prelude.{◌≡◌, ◌↔◌, OnOk, IsTrue, Contains};
ghost use Rattle.core_parts.specs.Lists.{is_in};
ghost use Rattle.core_parts.specs.Boards.{joined_by};
ghost use Rattle.mark_world.specs.Pages.{target, targets_joined};
ghost use Rattle.mark_world.specs.Steps.{all_joined, joined_if_white, snap_targets, white};

use core_parts::{Items, Note, join};
use mark_world::{Snap, target};
use std::alloc::Global;
use tagged_word::{NoMemory, Word};

/// Whether an address is in a list.
pub(crate) fn is_in(list: &[u32], at: u32) -> bool
    ensures { result ≡ is_in list.now at }
{
    list.contains(&at)
}

/// Whether a list has an address.
pub(crate) fn has(list: &[u32], at: u32) -> bool
    ensures { IsTrue result ↔ Contains list.now at }
{
    is_in(list, at)
}

/// The address joins a list, if there is one.
pub(crate) fn join_by(list: &mut Items<u32>, at: Option<u32>) -> Result<(), NoMemory>
    ensures { OnOk result (list.new ≡ joined_by list.old at) }
{
    if let Some(at) = at {
        join(list, at)?;
    }
    Ok(())
}

/// The target of a word joins a list.
pub(crate) fn join_target(list: &mut Items<u32>, old: u32, word: u64) -> Result<(), NoMemory>
    ensures { OnOk result (list.new ≡ joined_by list.old (target old word)) }
{
    join_by(list, target(Word(word), old))
}

/// Addresses join a list, one after another.
pub(crate) fn join_all(list: &mut Items<u32>, others: &[u32]) -> Result<(), NoMemory>
    ensures { OnOk result (list.new ≡ all_joined list.old others.now) }
{
    for at in others {
        join(list, *at)?;
    }
    Ok(())
}

/// The targets of words join a list, one after another.
pub(crate) fn join_targets(list: &mut Items<u32>, old: u32, words: &[u64]) -> Result<(), NoMemory>
    ensures { OnOk result (list.new ≡ targets_joined old list.old words.now) }
{
    for word in words {
        join_target(list, old, *word)?;
    }
    Ok(())
}

/// A cell that was found white joins a list.
pub(crate) fn join_if_white(list: &mut Items<u32>, found: u64, at: u32) -> Result<(), NoMemory>
    ensures { OnOk result (list.new ≡ joined_if_white list.old found at) }
{
    if found == 0 {
        join(list, at)?;
    }
    Ok(())
}

/// The targets of the words that a snap read in slots, each once.
pub(crate) fn snap_targets(alloc: Global, old: u32, snap: &Snap) -> Result<Items<u32>, NoMemory>
    ensures { OnOk result (result ≡ Ok (snap_targets old snap.now)) }
{
    let mut list = Items::new(alloc);
    for slot in snap.slots.as_slice() {
        join_target(&mut list, old, slot.word)?;
    }
    Ok(list)
}
