//! A list of addresses of cells without repeats, in the order in which they were pushed: the cells that a
//! marking found, each once.
//!
//! Model: a `Listing` of `specs/Listing.antt`: the bound that all addresses are below, and the listed
//! addresses, the first one first. It reads and writes no word of the heap.
//! Invariant: no address is listed twice, and each is below the bound. So there are no more than the
//! bound, and room for these is there from the start: no call takes memory later. It is written as addresses
//! are pushed.
#![tactic(auto)]

ghost use Rattle.std.specs.Prelude.{◌≡◌, ◌≢◌, ℕ, ◌+◌, ◌-◌, ◌<◌, ◌≤◌, ◌↔◌, ◌⊎◌, [], if◌then◌else◌, false};
ghost use Rattle.std.specs.Prelude.{length, slice_get, Some};
ghost use Rattle.std.specs.Prelude.{slice_index_or, Contains, IsTrue, IfOk, IfNone, IfSome, MatchOption};
ghost use Rattle.std.specs.Vec.{vec_capacity};
ghost use Rattle.cell_list.specs.Listing.{HasJoined, IsListing, pushed};

use std::alloc::Global;
use std::marker::Model;
use tagged_word::NoMemory;

/// How many flags are written at once where an address has none: a page of them. So where addresses ascend
/// most of them have one.
const STRETCH: usize = 4096;

/// How many flags are written in the time in which one address is taken off the list.
const FLAGS_OF_ONE: usize = 32;

/// The listed addresses of cells.
#[derive(Drop)]
pub struct CellList {
    // All addresses are below it.
    bound: u32,
    // In the order in which they were pushed, with room for each address below the bound.
    addresses: Vec<u32>,
    // The flag of an address tells whether it is listed: no call goes through the list to learn it. There is
    // room for that of each address below the bound, but what is written costs pages of memory, so flags are
    // written only as far as addresses were pushed. What has no flag is not listed.
    listed: Vec<bool>,
}

impl Model for CellList {
    ghost use Rattle.cell_list.specs.Listing.{Listing};

    ghost Value = { Listing };

    ghost use Rattle.cell_list.specs.Model.{listing_of, IsValid};

    ghost view = { listing_of };

    ghost invariant = { IsValid };
}

/// Writes the flags that are missing up to that of an address, and some behind it, in the room that there
/// is. It stands apart, so that what `push` inlines stays small.
#[inline(never)]
fn grow(flags: &mut Vec<bool>, at: u32, bound: u32)
    requires below { at < bound }
    requires room { bound ≤ vec_capacity flags.old }
    requires none { length flags.old.items ≤ at }
    ensures reached { at < length flags.new.items }
    ensures same { (other : ℕ) →
        slice_index_or flags.new.items other false ≡ slice_index_or flags.old.items other false }
    ensures room { bound ≤ vec_capacity flags.new }
{
    let count = (at as usize + STRETCH).min(bound as usize);
    if flags.resize(count, false).is_err() {
        unreachable!();
    }
}

/// Sets the flag of an address.
#[inline(always)]
fn set_flag(flags: &mut Vec<bool>, at: u32, bound: u32)
    requires below { at < bound }
    requires room { bound ≤ vec_capacity flags.old }
    ensures own { IsTrue (slice_index_or flags.new.items at false) }
    ensures others { (other : ℕ) → other ≢ at →
        slice_index_or flags.new.items other false ≡ slice_index_or flags.old.items other false }
    ensures room { bound ≤ vec_capacity flags.new }
{
    if at as usize >= flags.len() {
        grow(flags, at, bound);
    }
    flags[at as usize] = true;
}

impl CellList {
    /// No address is listed, of those below the bound. It takes all the memory that it needs: later
    /// calls take none.
    pub fn new(alloc: Global, bound: u32) -> Result<CellList, NoMemory>
        ensures { IfOk result (λ list. list ≡ record { bound = bound; addresses = [] }) }
    {
        let addresses = Vec::with_capacity(alloc, bound as usize)?;
        let listed = Vec::with_capacity(alloc, bound as usize)?;
        Ok(CellList {
            bound,
            addresses,
            listed,
        })
    }

    /// How many addresses are listed.
    #[inline(always)]
    pub fn len(&self) -> usize
        ensures count { result ≡ length self.now.addresses }
        ensures own { IsListing self.now }
    {
        self.addresses.len()
    }

    /// The address at a place of the list.
    #[inline(always)]
    pub fn get(&self, place: usize) -> u32
        requires { place < length self.now.addresses }
        ensures { slice_get self.now.addresses place ≡ Some result }
    {
        self.addresses[place]
    }

    /// Whether the address is listed.
    #[inline(always)]
    pub fn contains(&self, at: u32) -> bool
        requires { at < self.now.bound }
        ensures { IsTrue result ↔ Contains self.now.addresses at }
    {
        (at as usize) < self.listed.len() && self.listed[at as usize]
    }

    /// Lists the address as the last, where it is not listed so far, and answers whether that was so.
    #[inline(always)]
    pub fn push(&mut self, at: u32) -> bool
        requires { at < self.old.bound }
        ensures was_new { IsTrue result ↔ (¬ Contains self.old.addresses at) }
        ensures value { self.new ≡ (if result then pushed self.old at else self.old) }
        ensures bound { self.new.bound ≡ self.old.bound }
    {
        if self.contains(at) {
            return false;
        }
        set_flag(&mut self.listed, at, self.bound);
        self.addresses.push_reserved(at);
        true
    }

    /// Lists the address, where it is not listed so far.
    #[inline(always)]
    pub fn add(&mut self, at: u32)
        requires { at < self.old.bound }
        ensures bound { self.new.bound ≡ self.old.bound }
        ensures members { (other : ℕ) → Contains self.new.addresses other ↔
            (Contains self.old.addresses other ⊎ (other ≡ at)) }
        ensures few { length self.new.addresses ≤ length self.old.addresses + 1 }
    {
        self.push(at);
    }

    /// Exchanges the address at a place with the last one. Those before the place stay.
    #[inline(always)]
    pub fn bring(&mut self, place: usize)
        requires { place < length self.old.addresses }
        ensures brought { slice_get self.new.addresses place ≡
            slice_get self.old.addresses (length self.old.addresses - 1) }
        ensures last { slice_get self.new.addresses (length self.old.addresses - 1) ≡
            slice_get self.old.addresses place }
        ensures before { (other : ℕ) → other < place →
            slice_get self.new.addresses other ≡ slice_get self.old.addresses other }
        ensures members { (at : ℕ) → Contains self.new.addresses at ↔ Contains self.old.addresses at }
        ensures count { length self.new.addresses ≡ length self.old.addresses }
        ensures bound { self.new.bound ≡ self.old.bound }
        ensures own { IsListing self.new }
    {
        let last = self.addresses.len() - 1;
        self.addresses.swap(place, last);
    }

    /// Takes the address off the list that was pushed last; none where the list is empty.
    pub fn pop(&mut self) -> Option<u32>
        ensures last { MatchOption result
            (self.old.addresses ≡ []) (λ at. self.old ≡ pushed self.new at) }
        ensures below { IfSome result (λ at. at < self.old.bound) }
        ensures gone { IfSome result (λ at. ¬ Contains self.new.addresses at) }
        ensures unchanged { IfNone result (self.new ≡ self.old) }
        ensures bound { self.new.bound ≡ self.old.bound }
    {
        let at = self.addresses.pop()?;
        self.listed[at as usize] = false;
        Some(at)
    }

    /// Lists the addresses of another list, too.
    pub fn join(&mut self, others: &CellList)
        requires { others.now.bound ≤ self.old.bound }
        ensures joined { HasJoined self.old self.new others.now }
        ensures bound { self.new.bound ≡ self.old.bound }
    {
        for place in 0..others.len() {
            self.add(others.get(place));
        }
    }

    /// No address is listed any more. The time goes by how many there were, if these are few among the
    /// flags; else the flags go at once, and later pushes write them anew, a stretch at a time.
    pub fn clear(&mut self)
        ensures { self.new ≡ record self.old { addresses = [] } }
    {
        if self.addresses.len() > self.listed.len() / FLAGS_OF_ONE {
            self.addresses.clear();
            self.listed.clear();
            return;
        }
        while self.pop().is_some() {}
    }
}
