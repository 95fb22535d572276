//! The texts of values, shapes and counts.
ghost use Rattle.std.specs.Prelude.{◌≡◌, [], ◌++◌, map, slice_get, unwrap_or, decimal, IfOk};
ghost use Rattle.object_graph.specs.Texts.{line, value_text, census_text, rep_text, field_text, shape_text};

use itoa::Buffer;
use object_graph::{Field, Object, Rep, Value};
use std::alloc::{AllocError, Global};

/// The value as it is written.
pub fn value_text(alloc: Global, objects: &[Object], value: Value) -> Result<Vec<u8>, AllocError>
    ensures { IfOk result (λ text. text.items ≡ value_text objects.now value) }
{
    match value {
        Value::Int(v) => Vec::from_slice(alloc, Buffer::new().format(v).as_bytes()),
        Value::Undefined => Vec::from_slice(alloc, b"undefined"),
        Value::Ref(number) => match objects.get(number as usize) {
            Some(Object::Plain { .. }) => numbered(alloc, b"object ", number),
            Some(Object::List { .. }) => numbered(alloc, b"list ", number),
            Some(Object::Weak { .. }) => numbered(alloc, b"weak ", number),
            None => Ok(Vec::new(alloc)),
        },
    }
}

/// What an object is called, and its number.
fn numbered(alloc: Global, noun: &[u8], number: u32) -> Result<Vec<u8>, AllocError>
    ensures { IfOk result (λ text. text.items ≡ noun.now ++ decimal number) }
{
    let mut text = Vec::from_slice(alloc, noun)?;
    text.extend_from_slice(Buffer::new().format(number).as_bytes())?;
    Ok(text)
}

/// The shape of a plain object with this cap and these fields, as it is written. `names` are the
/// field names by number.
pub fn shape_text(
    alloc: Global,
    names: &[Vec<u8>],
    cap: u32,
    fields: &[Field],
) -> Result<Vec<u8>, AllocError>
    ensures { IfOk result (λ text.
        text.items ≡ shape_text (map (λ name. name.items) names.now) cap fields.now) }
{
    let mut text = numbered(alloc, b"cap ", cap)?;
    for field in fields {
        let more = field_text(alloc, names, *field)?;
        text.extend_from_slice(&more)?;
    }
    Ok(text)
}

/// A field as a shape has it: its name and its representation.
fn field_text(alloc: Global, names: &[Vec<u8>], field: Field) -> Result<Vec<u8>, AllocError>
    ensures { IfOk result (λ text.
        text.items ≡ field_text (map (λ name. name.items) names.now) field) }
{
    let mut text = Vec::from_slice(alloc, b" ")?;
    text.extend_from_slice(name_of(names, field.name))?;
    text.push(b':')?;
    text.extend_from_slice(word_of(field.rep))?;
    Ok(text)
}

/// The name of this number.
fn name_of(names: &[Vec<u8>], number: u32) -> &[u8]
    ensures { result.now ≡ unwrap_or (slice_get (map (λ name. name.items) names.now) number) [] }
{
    match names.get(number as usize) {
        Some(name) => name,
        None => &[],
    }
}

/// The line of a census.
pub fn census_text(alloc: Global, objects: u64, entries: u64) -> Result<Vec<u8>, AllocError>
    ensures { IfOk result (λ text. text.items ≡ line (census_text objects entries)) }
{
    let mut text = Vec::from_slice(alloc, b"objects ")?;
    text.extend_from_slice(Buffer::new().format(objects).as_bytes())?;
    text.extend_from_slice(b" entries ")?;
    text.extend_from_slice(Buffer::new().format(entries).as_bytes())?;
    text.push(b'\n')?;
    Ok(text)
}

/// What a representation is called.
fn word_of(rep: Rep) -> &'static [u8]
    ensures { result.now ≡ rep_text rep }
{
    match rep {
        Rep::Small => b"small",
        Rep::Wide => b"wide",
        Rep::Tagged => b"tagged",
    }
}
