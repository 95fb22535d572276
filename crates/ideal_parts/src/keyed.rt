//! Lists in which each item stands under a key: the fields of a plain object by their names, the
//! entries of a weak map by their keys. A list is changed in a copy, so that want of memory leaves
//! it as it was.
ghost use Rattle.std.specs.Prelude.{◌≡◌, ◌==◌, IfOk};
ghost use Rattle.std.specs.List.{position};

use object_graph::{Entry, Field, Rep, Value};
use std::alloc::{AllocError, Global};

/// What stands under a key in a list, and how a list of it is read and changed by keys.
pub trait Keyed: Copy {
    ghost use Rattle.ideal_parts.specs.Keyings.{Keying, GoesByKeys};

    ghost keying: { Keying Self };

    fn key(self) -> u32
        ensures { result ≡ keying.key self };

    fn value(self) -> Value
        ensures { result ≡ keying.value self };

    /// An item of this key and value, whose key is new to the list.
    fn new(key: u32, value: Value) -> Self
        ensures { result ≡ keying.made key value };

    /// The item with another value.
    fn revalued(self, value: Value) -> Self
        ensures { result ≡ keying.revalued self value };

    ghost by_keys: { GoesByKeys keying };
}

impl Keyed for Field {
    ghost use Rattle.ideal_parts.specs.Keyings.{field_keying, field_keys};

    ghost keying = { field_keying };

    ghost by_keys = { field_keys };

    fn key(self) -> u32 {
        self.name
    }

    fn value(self) -> Value {
        self.value
    }

    fn new(key: u32, value: Value) -> Field {
        Field {
            name: key,
            rep: Rep::of(value),
            value,
        }
    }

    /// The representation never narrows.
    fn revalued(self, value: Value) -> Field {
        Field {
            name: self.name,
            rep: self.rep.join(Rep::of(value)),
            value,
        }
    }
}

impl Keyed for Entry {
    ghost use Rattle.ideal_parts.specs.Keyings.{entry_keying, entry_keys};

    ghost keying = { entry_keying };

    ghost by_keys = { entry_keys };

    fn key(self) -> u32 {
        self.key
    }

    fn value(self) -> Value {
        self.value
    }

    fn new(key: u32, value: Value) -> Entry {
        Entry { key, value }
    }

    fn revalued(self, value: Value) -> Entry {
        Entry {
            key: self.key,
            value,
        }
    }
}

/// The value under the key, if there is one.
pub fn value_under<T: Keyed>(items: &[T], key: u32) -> Option<Value>
    ensures { result ≡ T.keying.value_under items.now key }
{
    match position_of_key(items, key) {
        Some(place) => Some(items[place].value()),
        None => None,
    }
}

/// A copy in which the key has the value. A key that is new comes last.
pub fn with_value<T: Keyed>(
    alloc: Global,
    items: &[T],
    key: u32,
    value: Value,
) -> Result<Vec<T>, AllocError>
    ensures { IfOk result (λ changed. changed.items ≡ T.keying.with_value items.now key value) }
{
    let mut copied = Vec::from_slice(alloc, items)?;
    match position_of_key(items, key) {
        Some(place) => copied[place] = items[place].revalued(value),
        None => copied.push(T::new(key, value))?,
    }
    Ok(copied)
}

/// A copy without the key. The later ones keep their order.
pub fn without_key<T: Keyed>(alloc: Global, items: &[T], key: u32) -> Result<Vec<T>, AllocError>
    ensures { IfOk result (λ rest. rest.items ≡ T.keying.without_key items.now key) }
{
    let mut copied = Vec::from_slice(alloc, items)?;
    if let Some(place) = position_of_key(items, key) {
        copied.remove(place);
    }
    Ok(copied)
}

/// The place of the first item of this key.
fn position_of_key<T: Keyed>(items: &[T], key: u32) -> Option<usize>
    ensures { result ≡ position (λ item. T.keying.key item == key) items.now }
{
    items.iter().position(|item| item.key() == key)
}
