//! The call `set`. A slot that does not take the value's word as it is, is set in `set_slot.rt`. A name that is new to
//! its object is in `add_field.rt`.
ghost use Rattle.std.specs.Prelude.{◌≡◌, ◌≢◌, IfSome, Result};
ghost use Rattle.handle_roots.specs.declared.given.Given.TheVariants as given;
ghost use Rattle.handle_roots.specs.declared.held.Held.{Held as What};
ghost use Rattle.handle_roots.specs.Givens.{IsGivenFor};
ghost use Rattle.object_graph.specs.declared.value.Rep.TheVariants.{Wide};
ghost use Rattle.shape_tree.specs.declared.located.Located.{Located as Found};
ghost use Rattle.shape_change.specs.FieldChanges.{MaySet, Sets};
ghost use Rattle.shape_change.specs.FieldValues.{IsFieldValue, given_of};
ghost use Rattle.shape_change.specs.Fillings.{KeepsTagged};
ghost use Rattle.shape_change.specs.WordPlaces.{HasWordAt};
ghost use Rattle.shape_change.specs.declared.stop.FieldStop.{FieldStop as Why};

use crate::add_field::add;
use crate::field_value::FieldValue;
use crate::outcome::{FieldOutcome, told};
use crate::set_slot::set_there;
use crate::slots::{Place, fill, own_place, stored_place};
use crate::stop::FieldStop;
use handle_roots::Given;
use object_cells::SlotWrite;
use object_graph::Rep;
use shape_tree::CachedSlot;
use tagged_word::{Header, Word, shape};
use write_barrier::Main;

/// Gives the field of the plain object at an address, which has this header, the value. A name that is new to the
/// object becomes its last field.
///
/// Only shapes of plain objects are cached, so where a slot is cached the object is one, and its shape is not asked.
///
/// # Errors
/// The object is no plain one; it has 64 fields and the name is new; there may not be as many field paths; there is no
/// room. In this order; nothing has changed.
#[inline(always)]
pub fn set<O: FieldOutcome>(
    main: &mut Main,
    object: u32,
    header: Header,
    name: u32,
    value: FieldValue,
) -> O
    requires may { MaySet main.old object header (given_of value) }
    requires is { IsFieldValue value }
    ensures { (came : Result Unit Why) × O.Tells result came
        × Sets main.old main.new object header name (given_of value) came }
{
    match main.cached_slot(header.shape, name) {
        CachedSlot::InObject(slot, rep) => {
            let place = own_place(main, object, slot);
            set_at(main, object, header, name, place, rep, value)
        }
        CachedSlot::InStore(slot, rep) => {
            let place = stored_place(main, object, slot);
            set_at(main, object, header, name, place, rep, value)
        }
        CachedSlot::Absent => add(main, object, header, name, value.given()),
        CachedSlot::Miss => set_sought(main, object, header, name, value.given()),
    }
}

/// The same where the slot at a place has the word of the field, which has this representation.
#[inline(always)]
fn set_at<O: FieldOutcome>(
    main: &mut Main,
    object: u32,
    header: Header,
    name: u32,
    place: Place,
    rep: Rep,
    value: FieldValue,
) -> O
    requires may { MaySet main.old object header (given_of value) }
    requires is { IsFieldValue value }
    requires there { (found : Found) × HasWordAt main.old object header.shape name found place × (found.rep ≡ rep) }
    ensures { (came : Result Unit Why) × O.Tells result came
        × Sets main.old main.new object header name (given_of value) came }
{
    match taken_by(rep, value) {
        Some(word) => {
            main.addresses_fit();
            fill(main, object, place, SlotWrite::Tagged(word));
            O::done()
        }
        None => set_sought(main, object, header, name, value.given()),
    }
}

/// The word of a value that the slot of a field of this representation, which is no wide one, takes as it is.
#[inline(always)]
fn taken_by(rep: Rep, value: FieldValue) -> Option<Word>
    requires not_wide { rep ≢ Wide }
    requires is { IsFieldValue value }
    ensures { IfSome result (λ word. (given_of value ≡ given.Word word)
        × ((held : What) → IsGivenFor (given_of value) held → KeepsTagged rep held word)) }
{
    match value {
        FieldValue::Small(word) => Some(word),
        FieldValue::Any(Given::Word(word)) if rep == Rep::Tagged => Some(word),
        FieldValue::Any(_) => None,
    }
}

/// The same as `set` where no slot is cached that takes the value's word as it is.
#[cold]
#[inline(never)]
fn set_sought<O: FieldOutcome>(
    main: &mut Main,
    object: u32,
    header: Header,
    name: u32,
    value: Given,
) -> O
    requires may { MaySet main.old object header value }
    ensures { (came : Result Unit Why) × O.Tells result came
        × Sets main.old main.new object header name value came }
{
    if header.shape < shape::PATHS {
        return O::refused(FieldStop::NotPlain);
    }
    match main.lookup(header.shape, name) {
        Some(found) => told(set_there(
            main,
            object,
            header,
            found.at,
            found.rep,
            found.cap as u32,
            value.held(),
        )),
        None => add(main, object, header, name, value),
    }
}
