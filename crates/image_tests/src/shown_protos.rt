//! Which prototypes of objects images show.
use crate::images::Change::{self, Word};
use crate::images::image_of;
use crate::shown_graphs::{D, K, SCRIPT, empty, go_on, is_shown};
use crate::worked::MIXED;
use heap_check::check;
use heap_command::Command::{self, DropVar, Proto};
use heap_command::Operand::{Undefined, Var};
use ideal_graph::{Field, Fields, Object, Rep, Value};
use slow_check::show_reached;
use std::alloc::Global;
use std::test::Fail;

/// Changes of the mixed heap, the prototype of number 2, what differs, and whether the image shows numbers 2 and 3.
type ProtoCase = (&'static [Change], Option<u32>, &'static str, bool);

/// The prototype slot of number 2 refers to number 3.
const PROTO: Change = Word(2_056, 8_233);

const PROTO_CASES: [ProtoCase; 6] = [
    (&[], None, "no prototype", true),
    (&[PROTO], Some(3), "the prototype", true),
    (&[PROTO], Some(2), "another prototype", false),
    (&[PROTO], None, "a prototype more", false),
    (&[], Some(3), "a prototype less", false),
    (
        &[Word(2_056, 8_217)],
        Some(3),
        "the object itself as its prototype",
        false,
    ),
];

/// A plain object without fields and without a prototype.
fn bare(alloc: Global) -> Object {
    Object::Plain {
        cap: 0,
        proto: None,
        fields: Fields::from_vec(Vec::new(alloc)),
    }
}

/// The plain objects of the mixed heap, numbers 2 and 3, behind two others; number 2 has this prototype.
fn plain_objects(alloc: Global, proto: Option<u32>) -> Result<Vec<Object>, Fail> {
    let mut fields = Vec::new(alloc);
    fields.push(Field {
        name: 0,
        rep: Rep::Small,
        value: Value::Int(7),
    })?;
    let mut objects = Vec::new(alloc);
    objects.push(bare(alloc))?;
    objects.push(bare(alloc))?;
    objects.push(Object::Plain {
        cap: 1,
        proto,
        fields: Fields::from_vec(fields),
    })?;
    objects.push(bare(alloc))?;
    Ok(objects)
}

#[test]
fn an_object_is_shown_with_its_prototype_alone(rt: HostRuntime) -> Result<(), Fail> {
    for (changes, proto, what, expected) in PROTO_CASES {
        let image = image_of(&rt, rt.alloc(), &MIXED, changes)?;
        let objects = plain_objects(rt.alloc(), proto)?;
        let Ok(_counts) = check(rt.alloc(), &image) else {
            return Err(Fail::from("a flaw, or memory was refused"));
        };
        let shown = show_reached(&image, &[false, false, true, true], &objects);
        assert_eq!(rt; shown, expected, "{what}");
    }
    Ok(())
}

/// Changes of the mixed heap, commands behind its script, what differs with them, and whether the image shows the
/// graph in which number 3 is the prototype of number 2, and no variable is bound to it.
type GraphCase = (&'static [Change], &'static [Command], &'static str, bool);

const GRAPH_CASES: [GraphCase; 5] = [
    (&[PROTO], &[], "nothing", true),
    (&[], &[], "a prototype less", false),
    (
        &[PROTO, Word(2_072, 2)],
        &[],
        "another value under the key that the prototype keeps",
        false,
    ),
    (
        &[PROTO],
        &[Proto { x: K, v: Undefined }],
        "a prototype more",
        false,
    ),
    (
        &[],
        &[Proto { x: K, v: Undefined }],
        "the prototype taken away",
        true,
    ),
];

#[test]
fn a_graph_is_shown_with_its_prototypes_alone(rt: HostRuntime) -> Result<(), Fail> {
    for (changes, more, what, expected) in GRAPH_CASES {
        let mut ideal = empty(rt.alloc())?;
        go_on(&rt, &mut ideal, &SCRIPT[..10]);
        go_on(
            &rt,
            &mut ideal,
            &[Proto { x: K, v: Var(D) }, DropVar { x: D }],
        );
        go_on(&rt, &mut ideal, more);
        let image = image_of(&rt, rt.alloc(), &MIXED, changes)?;
        assert_eq!(rt; is_shown(rt.alloc(), &image, &ideal)?, expected, "{what}");
    }
    Ok(())
}
