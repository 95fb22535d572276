//! The slots of plain objects: where a field stands, what is read of it, and how it is filled. How a
//! field comes to an object, and how it goes, is in `add_field.rt` and `delete_field.rt`.
ghost use Rattle.object_graph.specs.declared.value.Rep.TheVariants as rep_of;
ghost use Rattle.object_cells.specs.Contents as contents;
ghost use Rattle.std.specs.Prelude.{◌≡◌, ◌≢◌, ◌+◌, ◌<◌, ℕ, Some, slice_get};
ghost use Rattle.std.specs.Prelude.{nat_lt, true, false, OnErr, IfOk, IfErr};
ghost use Rattle.shape_change.specs.Places.{is_own, place_at, IsPlaceOf, StandsSlot};
ghost use Rattle.page_space.specs.Extents.{marks_start};
ghost use Rattle.object_graph.specs.declared.value.Value.{Value};
ghost use Rattle.heap_model.specs.Slots.{IsFieldWord};
ghost use Rattle.heap_model.specs.Showing.{ShowsField};
ghost use Rattle.write_barrier.specs.MutatorState.{heap_of, IsTied, with_variable};
ghost use Rattle.write_barrier.specs.Seats.{heap_words};
ghost use Rattle.std.specs.Int.{cast_signed, w64};
ghost use Rattle.handle_roots.specs.declared.held.Held.TheVariants as held;
ghost use Rattle.handle_roots.specs.Roots.{FitsHeld, with_root};
ghost use Rattle.shape_change.specs.FieldChanges.{HoldsValue};
ghost use Rattle.object_cells.specs.CellsAt.{HasPlainSlot, IsCapAt};
ghost use Rattle.object_cells.specs.CycleChanges.{MayFillSlot};
ghost use Rattle.heap_model.specs.Wholeness.{Whole};
ghost use Rattle.heap_model.specs.Needs.{word_at};
ghost use Rattle.tagged_word.specs.declared.word.Class.{Class as WordClass};
ghost use Rattle.tagged_word.specs.Words.{IsClass, bits_of};
ghost use Rattle.tagged_word.specs.Readings.{reference_in};
ghost use Rattle.write_barrier.specs.Values.{held_of_class};
ghost use Rattle.object_cells.specs.Contents.{AllocatesBox, LacksRoom, HoldsSlotWord, IsBeforeLayouts};

use handle_roots::Held;
use object_cells::{SlotContent, SlotWrite};
use object_graph::Rep;
use tagged_word::cell::{PLAIN_HEAD, STORE_HEAD, STORE_SLOT};
use tagged_word::{Class, Word};
use write_barrier::{Main, NoRoom};

/// Where a field of a plain object stands.
#[derive(Clone, Copy)]
pub(crate) enum Place {
    /// In the object, at an offset.
    InObject(u32),
    /// In its property store, at an offset.
    InStore { store: u32, offset: u32 },
}

impl Place {
    /// Whether it is in the object itself.
    pub(crate) fn is_own(self) -> bool
        ensures { result ≡ is_own self }
    {
        matches!(self, Place::InObject(_))
    }
}

/// Whether a slot is raw, by where it stands and its representation.
#[inline(always)]
fn is_raw(own: bool, rep: Rep) -> bool
    ensures raw { result ≡ true → (own ≡ true) × (rep ≡ rep_of.Wide) }
    ensures tagged { result ≡ false → own ≡ true → rep ≢ rep_of.Wide }
{
    match rep {
        Rep::Wide => own,
        Rep::Small => false,
        Rep::Tagged => false,
    }
}

/// What the word of a slot that is not raw, and no small integer's, stands for.
#[inline(always)]
fn value_of_odd(main: &Main, word: Word) -> Held
    requires { (at : ℕ) → reference_in word.0 ≡ Some at
        → at + 1 < marks_start main.now.seat.space }
    ensures { (class : WordClass) → IsClass class → word.0 ≡ bits_of class
        → result ≡ held_of_class (heap_of main.now) class }
{
    main.addresses_fit();
    match word.class() {
        Some(Class::Ref(at)) if !main.is_box(word) => Held::Ref(at),
        _ => main.value_of_word(word),
    }
}

/// Makes a variable hold what the word of a slot stands for that is not raw. Its lowest bit tells a
/// small integer, whose word is the variable's first root word too.
#[inline(always)]
pub(crate) fn hold_tagged(main: &mut Main, variable: u32, word: Word)
    requires known { variable < main.old.seat.space.variables }
    requires class { (class : WordClass) × IsClass class × (word.0 ≡ bits_of class) }
    requires within { (at : ℕ) → reference_in word.0 ≡ Some at
        → at + 1 < marks_start main.old.seat.space }
    ensures held { (class : WordClass) → IsClass class → word.0 ≡ bits_of class →
        let value = held_of_class (heap_of main.old) class in
        main.new ≡ with_variable main.old variable value }
    ensures heap { (class : WordClass) → IsClass class → word.0 ≡ bits_of class →
        let value = held_of_class (heap_of main.old) class in
        heap_words main.new.seat ≡ with_root main.old.seat.space (heap_words main.old.seat) variable value }
    ensures fits { (class : WordClass) → IsClass class → word.0 ≡ bits_of class →
        FitsHeld (held_of_class (heap_of main.old) class) }
{
    if word.is_small() {
        main.hold_word(variable, word);
    } else {
        hold_odd(main, variable, word);
    }
}

/// The same of a word that is no small integer's.
#[inline(always)]
fn hold_odd(main: &mut Main, variable: u32, word: Word)
    requires known { variable < main.old.seat.space.variables }
    requires class { (class : WordClass) × IsClass class × (word.0 ≡ bits_of class) }
    requires within { (at : ℕ) → reference_in word.0 ≡ Some at
        → at + 1 < marks_start main.old.seat.space }
    ensures held { (class : WordClass) → IsClass class → word.0 ≡ bits_of class →
        let value = held_of_class (heap_of main.old) class in
        main.new ≡ with_variable main.old variable value }
    ensures heap { (class : WordClass) → IsClass class → word.0 ≡ bits_of class →
        let value = held_of_class (heap_of main.old) class in
        heap_words main.new.seat ≡ with_root main.old.seat.space (heap_words main.old.seat) variable value }
    ensures fits { (class : WordClass) → IsClass class → word.0 ≡ bits_of class →
        FitsHeld (held_of_class (heap_of main.old) class) }
{
    let value = value_of_odd(main, word);
    main.hold(variable, value);
}

/// Makes a variable hold the integer of a raw word.
#[inline(always)]
fn hold_raw(main: &mut Main, variable: u32, word: u64)
    requires known { variable < main.old.seat.space.variables }
    ensures held { main.new ≡ with_variable main.old variable (held.Int (cast_signed w64 word)) }
    ensures heap { let words = heap_words main.old.seat in
        heap_words main.new.seat ≡ with_root main.old.seat.space words variable (held.Int (cast_signed w64 word)) }
{
    main.hold(variable, Held::Int(word.cast_signed()));
}

/// Makes a variable hold the value of a field, by its word.
#[inline(always)]
pub(crate) fn hold_field(main: &mut Main, variable: u32, own: bool, rep: Rep, word: u64)
    requires whole { Whole (heap_of main.old) }
    requires known { variable < main.old.seat.space.variables }
    requires field { IsFieldWord (heap_of main.old) own rep word }
    ensures { (value : Value) → ShowsField (heap_of main.old) own word rep value
        → HoldsValue main.old main.new variable value }
{
    main.addresses_fit();
    if is_raw(own, rep) {
        hold_raw(main, variable, word);
    } else {
        hold_tagged(main, variable, Word(word));
    }
}

/// Where a slot of the plain object at an address stands: one of its own below its cap, or in its
/// property store.
#[inline(always)]
pub(crate) fn slot_place(main: &Main, object: u32, cap: u32, slot: u32) -> Place
    requires whole { Whole (heap_of main.now) }
    requires there { HasPlainSlot (heap_of main.now) object slot }
    requires cap { IsCapAt (heap_of main.now) object cap }
    ensures stands { StandsSlot (heap_of main.now) object slot result }
    ensures own { is_own result ≡ nat_lt slot cap }
    ensures place { IsPlaceOf (heap_of main.now) object cap slot result }
    ensures within { place_at object result < marks_start main.now.seat.space }
{
    if slot < cap {
        own_place(main, object, slot)
    } else {
        stored_place(main, object, slot - cap)
    }
}

/// Where an in-object slot stands of the plain object at an address, which has that slot.
#[inline(always)]
pub(crate) fn own_place(main: &Main, object: u32, slot: u32) -> Place
    requires whole { Whole (heap_of main.now) }
    requires there { (cap : ℕ) × IsCapAt (heap_of main.now) object cap
        × HasPlainSlot (heap_of main.now) object slot × (slot < cap) }
    ensures stands { StandsSlot (heap_of main.now) object slot result }
    ensures place { (cap : ℕ) → IsCapAt (heap_of main.now) object cap →
        IsPlaceOf (heap_of main.now) object cap slot result }
    ensures own { is_own result ≡ true }
    ensures within { place_at object result < marks_start main.now.seat.space }
{
    main.addresses_fit();
    Place::InObject(PLAIN_HEAD + slot)
}

/// Where a slot of the property store stands of the plain object at an address, which has that slot. So it has a
/// store, and its word for that is a reference: four times the address, and 1.
#[inline(always)]
pub(crate) fn stored_place(main: &Main, object: u32, slot: u32) -> Place
    requires whole { Whole (heap_of main.now) }
    requires there { (cap : ℕ) × IsCapAt (heap_of main.now) object cap
        × HasPlainSlot (heap_of main.now) object (cap + slot) }
    ensures stands { (cap : ℕ) → IsCapAt (heap_of main.now) object cap →
        StandsSlot (heap_of main.now) object (cap + slot) result }
    ensures place { (cap : ℕ) → IsCapAt (heap_of main.now) object cap →
        IsPlaceOf (heap_of main.now) object cap (cap + slot) result }
    ensures own { is_own result ≡ false }
    ensures within { place_at object result < marks_start main.now.seat.space }
{
    main.addresses_fit();
    let store = Word(main.slot(object, STORE_SLOT)).known_address();
    Place::InStore {
        store,
        offset: STORE_HEAD + slot,
    }
}

/// The word at a place of an object.
#[inline(always)]
pub(crate) fn word_of_place(main: &Main, object: u32, place: Place) -> u64
    requires whole { Whole (heap_of main.now) }
    requires within { place_at object place < marks_start main.now.seat.space }
    ensures { slice_get (heap_of main.now).words (place_at object place) ≡ Some result }
{
    match place {
        Place::InObject(offset) => main.slot(object, offset),
        Place::InStore { store, offset } => main.slot(store, offset),
    }
}

/// The address of a place of an object.
#[inline(always)]
fn address_of(main: &Main, object: u32, place: Place) -> u32
    requires within { place_at object place < marks_start main.now.seat.space }
    ensures { result ≡ place_at object place }
{
    main.addresses_fit();
    match place {
        Place::InObject(offset) => object + offset,
        Place::InStore { store, offset } => store + offset,
    }
}

/// How the slot at a place of an object comes to hold this. The words of a box that is to be made
/// are used from now on.
///
/// # Errors
/// There is no room for a box; nothing has changed.
#[inline(always)]
pub(crate) fn filling_of(
    main: &mut Main,
    object: u32,
    place: Place,
    content: SlotContent,
) -> Result<SlotWrite, NoRoom>
    requires whole { Whole (heap_of main.old) }
    requires tied { IsTied main.old }
    requires within { place_at object place < marks_start main.old.seat.space }
    requires slot { let word = word_at (heap_of main.old) (place_at object place) in
        HoldsSlotWord (heap_of main.old) word content }
    ensures filling { IfOk result (λ filling.
        filling ≡ contents.filling_at main.old (place_at object place) content) }
    ensures allocates { IfOk result (λ filling. AllocatesBox main.old main.new filling) }
    ensures in_cells { IfOk result (IsBeforeLayouts main.old.seat.space) }
    ensures refused { IfErr result (λ full.
        LacksRoom main.old (contents.filling_at main.old (place_at object place) content) full) }
    ensures unchanged { OnErr result (main.new ≡ main.old) }
{
    let at = address_of(main, object, place);
    object_cells::filling_of(main, at, content)
}

/// Fills the slot at a place of an object.
#[inline(always)]
pub(crate) fn fill(main: &mut Main, object: u32, place: Place, filling: SlotWrite)
    requires may { MayFillSlot main.old (place_at object place) filling }
    requires within { place_at object place < marks_start main.old.seat.space }
    requires room { IsBeforeLayouts main.old.seat.space filling }
    ensures { main.new ≡ contents.filled main.old (place_at object place) filling }
{
    match place {
        Place::InObject(offset) => object_cells::fill(main, object, offset, filling),
        Place::InStore { store, offset } => object_cells::fill(main, store, offset, filling),
    }
}
