//! The look-up cache: what look-ups by shape and name found before, a field or none.
ghost use Rattle.std.specs.Prelude.{◌≡◌, ◌≢◌, ◌+◌, ◌<◌, ◌≤◌, ◌↔◌, ◌==◌, false, length, slice_get};
ghost use Rattle.std.specs.Prelude.{option_map, Some, IsTrue, IfSome, IsNone};
ghost use Rattle.std.specs.List.{list_any};
ghost use Rattle.std.specs.Vec.{vec_len};
ghost use Rattle.heap_command.specs.Commands.{cap_most};
ghost use Rattle.object_graph.specs.declared.value.Rep.TheVariants.{Wide};
ghost use Rattle.object_graph.specs.Invariants.{fields_most};
ghost use Rattle.shape_tree.specs.declared.look_ups.Site.TheVariants.{Own, Stored};
ghost use Rattle.shape_tree.specs.Nodes.{no_look_up, look_up_entries, found_in, cached_in, TellsOf, IsSited, Keeps};

use crate::located::{CachedSlot, Located};
use object_graph::{PathField, Rep};

/// How many entries the cache has.
pub(crate) const LOOK_UP_ENTRIES: usize = 2048;

/// Where the word of a field stands. It is kept since a `get` or a `set` of most fields needs no more than it and the
/// slot's number.
#[derive(Clone, Copy)]
pub(crate) enum Site {
    /// In an in-object slot.
    Own,
    /// In a slot of the property store.
    Stored,
    /// In no slot: there is no field, or it is a wide one.
    Other,
}

/// A name was looked up in the path of a shape. It takes 16 bytes.
#[derive(Clone, Copy)]
pub(crate) struct LookUp {
    /// The shape; 0 where no look-up is cached.
    pub(crate) shape: u32,
    pub(crate) name: u32,
    /// The place of the field, if there is one.
    pub(crate) at: u8,
    /// How many in-object slots an object of the shape has.
    pub(crate) cap: u8,
    /// The field's representation, if there is one.
    pub(crate) rep: Rep,
    /// Whether the path has a field of the name.
    pub(crate) is_there: bool,
    /// Where the field's word stands.
    pub(crate) site: Site,
    /// The number of the slot that has it, counted from 0 there; 0 where none has it.
    pub(crate) slot: u8,
}

/// The entry of the cache for a name in the path of a shape. Several may share one: then the last stands there.
#[inline(always)]
pub(crate) fn look_up_index(shape: u32, name: u32) -> usize
    ensures { result < look_up_entries }
{
    shape.wrapping_add(name.wrapping_mul(61)) as usize % LOOK_UP_ENTRIES
}

/// The place of the field of this name among these.
#[inline(always)]
pub(crate) fn place_of(fields: &[PathField], name: u32) -> Option<u32>
    requires { length fields.now ≤ fields_most }
    ensures found { IfSome result (λ at.
        option_map (λ field. field.name) (slice_get fields.now at) ≡ Some name) }
    ensures none { IsNone result ↔ (list_any (λ field. field.name == name) fields.now ≡ false) }
{
    for (at, field) in fields.iter().enumerate() {
        if field.name == name {
            return Some(at as u32);
        }
    }
    None
}

/// Seeks the field of this name among those of the path of a shape, and keeps what was found at an entry of the
/// cache: a field or none.
#[inline(never)]
pub(crate) fn keep_look_up(
    look_ups: &mut Vec<LookUp>,
    entry: usize,
    fields: &[PathField],
    cap: u32,
    shape: u32,
    name: u32,
)
    requires there { entry < vec_len look_ups.old }
    requires few { length fields.now ≤ fields_most }
    requires capped { cap ≤ cap_most }
    ensures { Keeps look_ups.old.items look_ups.new.items entry (record { cap = cap; fields = fields.now })
        shape name }
{
    look_ups[entry] = LookUp::of(fields, cap, shape, name);
}

/// Where an object with this cap has the word of the field at a place, and the number of the slot.
fn site_of(at: u8, cap: u8, rep: Rep) -> (Site, u8)
    ensures own { result.0 ≡ Own → (rep ≢ Wide) × (result.1 ≡ at) × (at < cap) }
    ensures stored { result.0 ≡ Stored → (rep ≢ Wide) × (at ≡ cap + result.1) }
{
    match rep {
        Rep::Wide => (Site::Other, 0),
        Rep::Small | Rep::Tagged if at < cap => (Site::Own, at),
        Rep::Small | Rep::Tagged => (Site::Stored, at - cap),
    }
}

impl LookUp {
    /// What stands where nothing is cached: no path has its shape.
    pub(crate) fn none() -> LookUp
        ensures { result ≡ no_look_up }
    {
        LookUp {
            shape: 0,
            name: 0,
            at: 0,
            cap: 0,
            rep: Rep::Small,
            is_there: false,
            site: Site::Other,
            slot: 0,
        }
    }

    /// The look-up of this name among the fields of the path of a shape.
    fn of(fields: &[PathField], cap: u32, shape: u32, name: u32) -> LookUp
        requires few { length fields.now ≤ fields_most }
        requires capped { cap ≤ cap_most }
        ensures shape { result.shape ≡ shape }
        ensures name { result.name ≡ name }
        ensures tells { TellsOf (record { cap = cap; fields = fields.now }) result }
        ensures sited { 0 < shape → IsSited result }
    {
        let cap = cap as u8;
        let Some(place) = place_of(fields, name) else {
            return LookUp {
                shape,
                name,
                at: 0,
                cap,
                rep: Rep::Small,
                is_there: false,
                site: Site::Other,
                slot: 0,
            };
        };
        let (at, rep) = (place as u8, fields[place as usize].rep);
        let (site, slot) = site_of(at, cap, rep);
        LookUp {
            shape,
            name,
            at,
            cap,
            rep,
            is_there: true,
            site,
            slot,
        }
    }

    /// Whether it is that of this name in the path of this shape.
    #[inline(always)]
    pub(crate) fn is_for(&self, shape: u32, name: u32) -> bool
        ensures { IsTrue result ↔ ((self.now.shape ≡ shape) × (self.now.name ≡ name)) }
    {
        self.shape == shape && self.name == name
    }

    /// What it found. Each part is read by itself: a caller often needs but one.
    #[inline(always)]
    pub(crate) fn found(&self) -> Option<Located>
        ensures { result ≡ found_in self.now }
    {
        if self.is_there {
            Some(Located {
                shape: self.shape,
                name: self.name,
                at: self.at as u32,
                cap: self.cap,
                rep: self.rep,
            })
        } else {
            None
        }
    }

    /// What it has of its shape and name.
    #[inline(always)]
    pub(crate) fn cached(&self) -> CachedSlot
        ensures { result ≡ cached_in self.now }
    {
        let slot = self.slot as u32;
        match self.site {
            Site::Own => CachedSlot::InObject(slot, self.rep),
            Site::Stored => CachedSlot::InStore(slot, self.rep),
            Site::Other if self.is_there => CachedSlot::Miss,
            Site::Other => CachedSlot::Absent,
        }
    }
}
