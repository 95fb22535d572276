//! Marks of objects: a mark for each object, by the object's number.
ghost use Rattle.std.specs.Prelude.{◌≡◌, ◌&&◌, ◌||◌, count_by};
ghost use Rattle.std.specs.List.{list_any};
ghost use Rattle.object_graph.specs.Reach.{is_marked, refers_to, is_number, links, marked_entries};
ghost use Rattle.object_graph.specs.Marks.{MarksAlso};

use object_graph::{Entry, Field, Object, Value};

/// Whether the object of this number is marked.
pub fn is_marked(marks: &[bool], number: u32) -> bool
    ensures { result ≡ is_marked marks.now number }
{
    marks.get(number as usize).copied().unwrap_or(false)
}

/// How many objects are marked.
pub fn count_marked(marks: &[bool]) -> u64
    ensures { result ≡ count_by (λ mark. mark) marks.now }
{
    let mut count = 0;
    for mark in marks {
        if *mark {
            count += 1;
        }
    }
    count
}

/// How many entries of the object have a marked key.
pub fn marked_entries(marks: &[bool], object: &Object) -> u64
    ensures { result ≡ marked_entries marks.now object.now }
{
    match object {
        Object::Plain { .. } | Object::List { .. } => 0,
        Object::Weak { entries } => count_keyed(marks, entries.as_slice()),
    }
}

/// How many of the entries have a marked key.
pub(crate) fn count_keyed(marks: &[bool], entries: &[Entry]) -> u64
    ensures { result ≡ count_by (λ entry. is_marked marks.now entry.key) entries.now }
{
    let mut count = 0;
    for entry in entries {
        if is_marked(marks, entry.key) {
            count += 1;
        }
    }
    count
}

/// Marks the object that the value refers to.
pub fn mark(marks: &mut [bool], value: Value)
    ensures { MarksAlso marks.old marks.new (λ number. refers_to number value) }
{
    if let Value::Ref(number) = value {
        let place = number as usize;
        if place < marks.len() {
            marks[place] = true;
        }
    }
}

/// Marks in `next` what the object links to, where these are the marks of keys.
pub fn mark_links(marks: &[bool], object: &Object, next: &mut [bool])
    ensures { MarksAlso next.old next.new (links marks.now object.now) }
{
    match object {
        Object::Plain { proto, fields, .. } => mark_plain(*proto, fields.as_slice(), next),
        Object::List { elements } => mark_values(elements.as_slice(), next),
        Object::Weak { entries } => mark_entries(marks, entries.as_slice(), next),
    }
}

/// Marks the prototype, if there is one, and what the fields refer to.
fn mark_plain(proto: Option<u32>, fields: &[Field], next: &mut [bool])
    ensures { MarksAlso next.old next.new (λ number.
        is_number number proto || list_any (λ field. refers_to number field.value) fields.now) }
{
    mark_number(proto, next);
    mark_fields(fields, next);
}

/// Marks the object of this number, if there is one.
fn mark_number(proto: Option<u32>, next: &mut [bool])
    ensures { MarksAlso next.old next.new (λ number. is_number number proto) }
{
    if let Some(number) = proto {
        mark(next, Value::Ref(number));
    }
}

/// Marks what the fields refer to.
fn mark_fields(fields: &[Field], next: &mut [bool])
    ensures { MarksAlso next.old next.new (λ number.
        list_any (λ field. refers_to number field.value) fields.now) }
{
    for field in fields {
        mark(next, field.value);
    }
}

/// Marks what the values refer to.
fn mark_values(values: &[Value], next: &mut [bool])
    ensures { MarksAlso next.old next.new (λ number. list_any (refers_to number) values.now) }
{
    for value in values {
        mark(next, *value);
    }
}

/// Marks what the values of entries with a marked key refer to.
fn mark_entries(marks: &[bool], entries: &[Entry], next: &mut [bool])
    ensures { MarksAlso next.old next.new (λ number.
        list_any (λ entry. is_marked marks.now entry.key && refers_to number entry.value) entries.now) }
{
    for entry in entries {
        mark_entry(marks, *entry, next);
    }
}

/// Marks what the entry's value refers to if its key is marked.
fn mark_entry(marks: &[bool], entry: Entry, next: &mut [bool])
    ensures { MarksAlso next.old next.new (λ number.
        is_marked marks.now entry.key && refers_to number entry.value) }
{
    let Entry { key, value } = entry;
    if is_marked(marks, key) {
        mark(next, value);
    }
}
