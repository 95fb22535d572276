//! What values name: integers, keys, and the places and counts of a list's elements.
ghost use Rattle.std.specs.Prelude.{◌<◌, ◌≤◌, suc, IfOk, length, slice_get, option_and_then};
ghost use Rattle.object_graph.specs.Meaning.{below};
ghost use Rattle.object_graph.specs.Graphs.{integer_in, object_in};
ghost use Rattle.ideal_parts.specs.Lookups.{IsLookup};

use heap_command::FaultWord;
use object_graph::Value;

/// The integer that the value is.
pub fn integer(value: Value) -> Result<i64, FaultWord>
    ensures { IsLookup FaultWord.NotInt (integer_in value) result }
{
    match value {
        Value::Int(v) => Ok(v),
        Value::Undefined | Value::Ref(_) => Err(FaultWord::NotInt),
    }
}

/// The number of the object that the value refers to.
pub fn key(value: Value) -> Result<u32, FaultWord>
    ensures { IsLookup FaultWord.BadKey (object_in value) result }
{
    match value {
        Value::Ref(number) => Ok(number),
        Value::Int(_) | Value::Undefined => Err(FaultWord::BadKey),
    }
}

/// The place that an index names: one of an element.
pub fn place_in(elements: &[Value], index: i64) -> Result<usize, FaultWord>
    ensures found { IsLookup FaultWord.Range (below (length elements.now) index) result }
    ensures within { IfOk result (λ place. place < length elements.now) }
{
    match usize::try_from(index) {
        Ok(place) if place < elements.len() => Ok(place),
        _ => Err(FaultWord::Range),
    }
}

/// The element that an index names.
pub fn element_at(elements: &[Value], index: i64) -> Result<Value, FaultWord>
    ensures { IsLookup FaultWord.Range
        (option_and_then (slice_get elements.now) (below (length elements.now) index)) result }
{
    let place = place_in(elements, index)?;
    Ok(elements[place])
}

/// The count of elements that an integer names: none up to all.
pub fn count_of(elements: &[Value], count: i64) -> Result<usize, FaultWord>
    ensures found { IsLookup FaultWord.Range (below (suc (length elements.now)) count) result }
    ensures within { IfOk result (λ count. count ≤ length elements.now) }
{
    match usize::try_from(count) {
        Ok(count) if count <= elements.len() => Ok(count),
        _ => Err(FaultWord::Range),
    }
}
