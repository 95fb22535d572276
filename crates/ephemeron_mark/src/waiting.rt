//! The pairs that wait for their keys, found by key.
ghost use Rattle.std.specs.Prelude.{◌≡◌, ◌≢◌, ℕ, ◌<◌, ◌≤◌, ◌⊎◌, [], IfOk, length, slice_get, slice_index, Some};
ghost use Rattle.std.specs.Vec.{vec_capacity};
ghost use Rattle.ephemeron_mark.specs.Pairs.{WaitsFor, IsLastOf, none_waits};
ghost use Rattle.ephemeron_mark.specs.Model.{AreTold};

use cell_list::CellList;
use std::alloc::Global;
use std::marker::Model;
use std::mem;
use tagged_word::NoMemory;

/// Of how many addresses it is written at once that no pair waits for them: a page of it.
const STRETCH: usize = 1024;

/// A pair that waits, beside the slot of its value.
#[derive(Clone, Copy)]
pub(crate) struct WaitingPair {
    /// The cell of its key.
    key: u32,
    /// How many pairs there are up to the last one before it that waits for the same key; 0 where there
    /// is none.
    earlier: u32,
}

/// The pairs that wait.
#[derive(Drop)]
pub(crate) struct Waiting {
    // The slot of each pair's value, in the order in which the pairs came.
    slots: CellList,
    // The pairs in the same order, with room for each address below the bound.
    pairs: Vec<WaitingPair>,
    // For an address, how many pairs there are up to the last one that waits for it; 0 where none does. There
    // is room for each address below the bound, but what is written costs pages of memory, so it is written
    // only as far as pairs waited for addresses. For one behind that none does.
    last: Vec<u32>,
}

impl Model for Waiting {
    ghost use Rattle.ephemeron_mark.specs.Pairs.{Waits};

    ghost Value = { Waits };

    ghost use Rattle.ephemeron_mark.specs.Model.{waits_of, IsWaiting};

    ghost view = { waits_of };

    ghost invariant = { IsWaiting };
}

/// Takes off all pairs, the last one first. What was told of its key before it came is told again.
fn forget_pairs(last: &mut Vec<u32>, pairs: &mut Vec<WaitingPair>)
    requires { AreTold last.old.items pairs.old.items }
    ensures told { AreTold last.new.items [] }
    ensures none { pairs.new.items ≡ [] }
    ensures capacity { vec_capacity pairs.new ≡ vec_capacity pairs.old }
    ensures capacity_of_last { vec_capacity last.new ≡ vec_capacity last.old }
{
    while let Some(pair) = pairs.pop() {
        last[pair.key as usize] = pair.earlier;
    }
}

/// Writes what is missing up to a key, and some behind it, in the room that there is: that no pair waits. It
/// stands apart, so that what `add` inlines stays small.
#[inline(never)]
fn grow(last: &mut Vec<u32>, key: u32)
    requires room { key < vec_capacity last.old }
    requires none { length last.old.items ≤ key }
    ensures reached { key < length last.new.items }
    ensures same { (other : ℕ) → slice_index last.new.items other ≡ slice_index last.old.items other }
    ensures capacity { vec_capacity last.old ≤ vec_capacity last.new }
{
    let count = (key as usize + STRETCH).min(last.capacity());
    if last.resize(count, 0).is_err() {
        unreachable!();
    }
}

/// Tells of a key how many pairs there are up to the last one that waits for it. It answers what was told
/// so far.
#[inline(always)]
fn tell_last(last: &mut Vec<u32>, key: u32, count: u32) -> u32
    requires room { key < vec_capacity last.old }
    ensures before { result ≡ slice_index last.old.items key }
    ensures own { slice_index last.new.items key ≡ count }
    ensures others { (other : ℕ) → other ≢ key →
        slice_index last.new.items other ≡ slice_index last.old.items other }
    ensures capacity { vec_capacity last.old ≤ vec_capacity last.new }
{
    if key as usize >= last.len() {
        grow(last, key);
    }
    mem::replace(&mut last[key as usize], count)
}

impl Waiting {
    /// No pair waits, of those whose slots and keys are below the bound. It takes all the memory that it
    /// needs: later calls take none.
    pub(crate) fn new(alloc: Global, bound: u32) -> Result<Waiting, NoMemory>
        ensures { IfOk result (λ waiting. waiting ≡ none_waits bound) }
    {
        let slots = CellList::new(alloc, bound)?;
        let pairs = Vec::with_capacity(alloc, bound as usize)?;
        let last = Vec::with_capacity(alloc, bound as usize)?;
        Ok(Waiting { slots, pairs, last })
    }

    /// No pair waits any more. The time goes by how many did.
    pub(crate) fn clear(&mut self)
        ensures { self.new ≡ none_waits self.old.bound }
    {
        self.slots.clear();
        forget_pairs(&mut self.last, &mut self.pairs);
    }

    /// Lets the pair whose value has this slot wait for its key.
    pub(crate) fn add(&mut self, key: u32, slot: u32)
        requires key { key < self.old.bound }
        requires slot { slot < self.old.bound }
        requires one { (other : ℕ) → WaitsFor self.old other slot → other ≡ key }
        ensures waits { WaitsFor self.new key slot }
        ensures kept { (other at : ℕ) → WaitsFor self.old other at → WaitsFor self.new other at }
        ensures only { (other at : ℕ) → WaitsFor self.new other at →
            WaitsFor self.old other at ⊎ ((other ≡ key) × (at ≡ slot)) }
        ensures bound { self.new.bound ≡ self.old.bound }
    {
        if !self.slots.push(slot) {
            // It waits already.
            return;
        }
        let count = self.slots.len() as u32;
        let earlier = tell_last(&mut self.last, key, count);
        self.pairs.push_reserved(WaitingPair { key, earlier });
    }

    /// How many pairs there are up to the last one that waits for a key; 0 where none does.
    pub(crate) fn last(&self, key: u32) -> u32
        requires { key < self.now.bound }
        ensures last { IsLastOf self.now.keys (length self.now.keys) key result }
        ensures as_many { length self.now.slots ≡ length self.now.keys }
    {
        if key as usize >= self.last.len() {
            return 0;
        }
        self.last[key as usize]
    }

    /// How many pairs there are up to the last one before another that waits for the same key; 0 where
    /// there is none.
    pub(crate) fn earlier(&self, place: u32) -> u32
        requires { place < length self.now.keys }
        ensures { (key : ℕ) → slice_get self.now.keys place ≡ Some key →
            IsLastOf self.now.keys place key result }
    {
        self.pairs[place as usize].earlier
    }

    /// The slot of a pair's value.
    pub(crate) fn slot(&self, place: u32) -> u32
        requires { place < length self.now.slots }
        ensures { slice_get self.now.slots place ≡ Some result }
    {
        self.slots.get(place as usize)
    }
}
