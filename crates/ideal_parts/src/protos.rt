//! Prototypes: where a chain of them leads, the field that is found along one, and the prototype that a
//! value gives.
ghost use Rattle.std.specs.Prelude.{◌≡◌, option_map, length};
ghost use Rattle.object_graph.specs.Prototypes.{proto_of, proto_at, proto_for, field_along, leads_to, makes_ring};
ghost use Rattle.ideal_parts.specs.Lookups.{IsLookup, seen_plain};

use crate::keyed::value_under;
use crate::lookups::{Plain, plain_at};
use heap_command::FaultWord;
use object_graph::{Object, Value};

/// The prototype that a value gives: none where it is `undefined`, and the plain object that it refers to.
pub fn proto_for(objects: &[Object], value: Value) -> Result<Option<u32>, FaultWord>
    ensures { IsLookup FaultWord.NotObject (proto_for objects.now value) result }
{
    match value {
        Value::Undefined => Ok(None),
        Value::Int(_) => Err(FaultWord::NotObject),
        Value::Ref(_) => Ok(Some(plain_at(objects, value)?.number)),
    }
}

/// Whether the object would be in a ring with this prototype.
pub fn makes_ring(objects: &[Object], number: u32, proto: Option<u32>) -> bool
    ensures { result ≡ makes_ring objects.now number proto }
{
    match proto {
        Some(proto) => leads_to(objects, proto, number),
        None => false,
    }
}

/// Whether the one object is the other, or comes to it by at most as many prototypes as there are objects.
fn leads_to(objects: &[Object], number: u32, other: u32) -> bool
    ensures { result ≡ leads_to objects.now (length objects.now) number other }
{
    let mut at = number;
    for _turn in 0..objects.len() {
        if at == other {
            return true;
        }
        let Some(next) = proto_of(objects, at) else {
            return false;
        };
        at = next;
    }
    at == other
}

/// The prototype of the object of this number.
fn proto_of(objects: &[Object], number: u32) -> Option<u32>
    ensures { result ≡ proto_of objects.now number }
{
    match objects.get(number as usize) {
        Some(Object::Plain { proto, .. }) => *proto,
        Some(Object::List { .. }) => None,
        Some(Object::Weak { .. }) => None,
        None => None,
    }
}

/// The value of the field of this name in the first object that has it: the plain object itself, or one
/// of so many that follow it by prototypes.
pub fn field_along(objects: &[Object], most: u32, plain: &Plain<'_>, name: u32) -> Option<Value>
    ensures { result ≡ field_along objects.now most (seen_plain plain.now) name }
{
    let mut at = *plain;
    for _turn in 0..most {
        if let Some(value) = value_under(at.fields, name) {
            return Some(value);
        }
        let Some(next) = proto_at(objects, &at) else {
            return None;
        };
        at = next;
    }
    value_under(at.fields, name)
}

/// The prototype of the plain object, if it has one.
fn proto_at<'a>(objects: &'a [Object], plain: &Plain<'_>) -> Option<Plain<'a>>
    ensures { option_map seen_plain result ≡ proto_at objects.now (seen_plain plain.now) }
{
    match plain.proto {
        Some(number) => plain_at(objects, Value::Ref(number)).ok(),
        None => None,
    }
}
