//! The objects that values refer to, by their kinds, and whether there is room in them.
ghost use Rattle.std.specs.Prelude.{◌≡◌, ◌<◌, ◌&&◌, IfOk, is_some, length};
ghost use Rattle.object_graph.specs.Meaning.{no_room_for, no_entry_for};
ghost use Rattle.object_graph.specs.Graphs.{plain_at, list_at, weak_at};
ghost use Rattle.object_graph.specs.Limits.{ideal_limits};
ghost use Rattle.object_graph.specs.Objects.{entry_value};
ghost use Rattle.object_graph.specs.Reach.{is_marked};
ghost use Rattle.ideal_parts.specs.Lookups.{FindsAs, seen_plain, seen_list, seen_weak};

use crate::keyed::value_under;
use crate::marks::{count_keyed, is_marked};
use heap_command::FaultWord;
use object_graph::limits::{ENTRIES_MOST, FIELDS_MOST};
use object_graph::{Entry, Field, Object, Value};

/// A plain object of the graph, with its number.
#[derive(Clone, Copy)]
pub struct Plain<'a> {
    pub number: u32,
    pub cap: u32,
    pub proto: Option<u32>,
    pub fields: &'a [Field],
}

/// A list of the graph, with its number.
#[derive(Clone, Copy)]
pub struct List<'a> {
    pub number: u32,
    pub elements: &'a [Value],
}

/// A weak map of the graph, with its number.
#[derive(Clone, Copy)]
pub struct Weak<'a> {
    pub number: u32,
    pub entries: &'a [Entry],
}

/// The plain object that the value refers to.
pub fn plain_at(objects: &[Object], value: Value) -> Result<Plain<'_>, FaultWord>
    ensures found { FindsAs seen_plain FaultWord.NotObject (plain_at objects.now value) result }
    ensures within { IfOk result (λ plain. plain.number < length objects.now) }
{
    let Value::Ref(number) = value else {
        return Err(FaultWord::NotObject);
    };
    match objects.get(number as usize) {
        Some(Object::Plain { cap, proto, fields }) => Ok(Plain {
            number,
            cap: *cap,
            proto: *proto,
            fields: fields.as_slice(),
        }),
        _ => Err(FaultWord::NotObject),
    }
}

/// The list that the value refers to.
pub fn list_at(objects: &[Object], value: Value) -> Result<List<'_>, FaultWord>
    ensures found { FindsAs seen_list FaultWord.NotList (list_at objects.now value) result }
    ensures within { IfOk result (λ list. list.number < length objects.now) }
{
    let Value::Ref(number) = value else {
        return Err(FaultWord::NotList);
    };
    match objects.get(number as usize) {
        Some(Object::List { elements }) => Ok(List {
            number,
            elements: elements.as_slice(),
        }),
        _ => Err(FaultWord::NotList),
    }
}

/// The weak map that the value refers to.
pub fn weak_at(objects: &[Object], value: Value) -> Result<Weak<'_>, FaultWord>
    ensures found { FindsAs seen_weak FaultWord.NotWeak (weak_at objects.now value) result }
    ensures within { IfOk result (λ weak. weak.number < length objects.now) }
{
    let Value::Ref(number) = value else {
        return Err(FaultWord::NotWeak);
    };
    match objects.get(number as usize) {
        Some(Object::Weak { entries }) => Ok(Weak {
            number,
            entries: entries.as_slice(),
        }),
        _ => Err(FaultWord::NotWeak),
    }
}

/// Whether the name is new to the object, which has as many fields as it may have.
pub fn has_no_room(plain: &Plain<'_>, name: u32) -> bool
    ensures { result ≡ no_room_for ideal_limits (seen_plain plain.now) name }
{
    let is_new = value_under(plain.fields, name).is_none();
    is_new && plain.fields.len() >= FIELDS_MOST as usize
}

/// Whether no entry with a marked key has this key, and as many have a marked key as a weak map may have.
pub fn is_full_for(marks: &[bool], entries: &[Entry], key: u32) -> bool
    ensures { result ≡ no_entry_for marks.now entries.now key }
{
    !is_known(marks, entries, key) && count_keyed(marks, entries) >= u64::from(ENTRIES_MOST)
}

/// Whether the key is marked, and an entry has it.
fn is_known(marks: &[bool], entries: &[Entry], key: u32) -> bool
    ensures { result ≡ (is_marked marks.now key && is_some (entry_value entries.now key)) }
{
    is_marked(marks, key) && value_under(entries, key).is_some()
}
