//! Where a field stands: what a look-up by shape and name finds.
use object_graph::Rep;

/// Where a field stands in the path of a shape.
#[derive(Clone, Copy)]
pub struct Located {
    /// The shape.
    pub shape: u32,
    /// The field's name.
    pub name: u32,
    /// Its place in the path, counted from 0: the number of its slot.
    pub at: u32,
    /// How many in-object slots an object of the shape has.
    pub cap: u8,
    /// The field's representation.
    pub rep: Rep,
}

/// What the look-up cache has of a shape and a name. A field that is not wide has its word in a slot.
#[derive(Clone, Copy)]
pub enum CachedSlot {
    /// The in-object slot of this number has the field's word, and this is the field's representation.
    InObject(u32, Rep),
    /// The slot of this number of the property store has it.
    InStore(u32, Rep),
    /// There is no field of the name.
    Absent,
    /// The field is wide, or the name was not looked up: `lookup` finds out.
    Miss,
}
