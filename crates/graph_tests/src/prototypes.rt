//! Prototypes: which may be given, and which fields are found along them. Scripts stand here as commands.

use heap_command::Command::{
    self, Alike, Census, Del, DropVar, Get, LetValue, List, New, Print, Proto, Set, Shape,
};
use heap_command::Operand::{Int, Undefined, Var};
use ideal_graph::{Ideal, IdealStop};
use std::alloc::Global;
use std::test::Fail;

const X: u32 = 0;

const Y: u32 = 1;

const Z: u32 = 2;

const A: u32 = 0;

/// What the commands write, up to the first fault. A fault is written as the program writes it, with the number
/// of the command from one on.
fn written(alloc: Global, commands: &[Command]) -> Result<Vec<u8>, Fail> {
    let mut names = Vec::new(alloc);
    names.push(Vec::from_slice(alloc, b"a")?)?;
    let mut ideal = Ideal::new(alloc, names)?;
    let mut text = Vec::new(alloc);
    for (before, command) in commands.iter().enumerate() {
        match ideal.step(command) {
            Ok(said) => text.extend_from_slice(&said.text)?,
            Err(IdealStop::ScriptFault(word)) => {
                let fault = format!(in alloc; "fault {} {}\n", before + 1, word.text())?;
                text.extend_from_slice(fault.as_bytes())?;
                return Ok(text);
            }
            Err(stop) => return Err(Fail::from(stop)),
        }
    }
    Ok(text)
}

/// Commands, and what they write.
type Case = (&'static [Command], &'static str);

/// New plain objects without fields, numbers 0 to 2, of the three variables.
const NEW_X: Command = New { x: X, cap: 0 };

const NEW_Y: Command = New { x: Y, cap: 0 };

const NEW_Z: Command = New { x: Z, cap: 0 };

/// `Y` has the prototype `X`, and `Z` the prototype `Y`.
const Y_X: Command = Proto { x: Y, v: Var(X) };

const Z_Y: Command = Proto { x: Z, v: Var(Y) };

/// Writes the field `A` of `Z`, found along its prototypes.
const GET: Command = Get { y: 3, x: Z, f: A };

const PRINT: Command = Print { v: Var(3) };

const FIELDS: [Case; 3] = [
    // The nearest field is read, and one that is taken out lets the next one be seen.
    (
        &[
            NEW_X,
            NEW_Y,
            NEW_Z,
            Set {
                x: X,
                f: A,
                v: Int(1),
            },
            Y_X,
            Z_Y,
            GET,
            PRINT,
            Set {
                x: Y,
                f: A,
                v: Undefined,
            },
            GET,
            PRINT,
            Set {
                x: Z,
                f: A,
                v: Int(3),
            },
            GET,
            PRINT,
            Del { x: Z, f: A },
            Del { x: Y, f: A },
            GET,
            PRINT,
        ],
        "1\nundefined\n3\n1\n",
    ),
    // Without its prototype an object has its own fields alone; a prototype is no part of a shape.
    (
        &[
            NEW_X,
            NEW_Z,
            Set {
                x: X,
                f: A,
                v: Int(1),
            },
            Proto { x: Z, v: Var(X) },
            Shape { x: Z },
            GET,
            PRINT,
            NEW_Y,
            Alike { x: Y, y: Z },
            Proto { x: Z, v: Undefined },
            GET,
            PRINT,
        ],
        "cap 0\n1\ntrue\nundefined\n",
    ),
    // A prototype is reached as long as the object is that has it.
    (
        &[
            NEW_X,
            NEW_Y,
            NEW_Z,
            Y_X,
            Z_Y,
            DropVar { x: X },
            DropVar { x: Y },
            Census,
            Proto { x: Z, v: Undefined },
            Census,
        ],
        "objects 3 entries 0\nobjects 1 entries 0\n",
    ),
];

const FAULTS: [Case; 9] = [
    (&[Y_X], "fault 1 unbound\n"),
    (&[NEW_Y, Y_X], "fault 2 unbound\n"),
    (
        &[List { x: X }, Proto { x: X, v: Undefined }],
        "fault 2 notobject\n",
    ),
    (&[NEW_X, Proto { x: X, v: Int(0) }], "fault 2 notobject\n"),
    (&[NEW_Y, List { x: X }, Y_X], "fault 3 notobject\n"),
    // That a list is no plain object is said before any ring.
    (
        &[List { x: X }, Proto { x: X, v: Var(X) }],
        "fault 2 notobject\n",
    ),
    (&[NEW_X, Proto { x: X, v: Var(X) }], "fault 2 ring\n"),
    (
        &[NEW_X, NEW_Y, NEW_Z, Y_X, Z_Y, Proto { x: X, v: Var(Z) }],
        "fault 6 ring\n",
    ),
    // A prototype that is taken away, or given again, makes no ring.
    (
        &[
            NEW_X,
            NEW_Y,
            NEW_Z,
            Y_X,
            Z_Y,
            Y_X,
            Proto { x: Z, v: Var(X) },
            Proto { x: Y, v: Undefined },
            Proto { x: X, v: Var(Y) },
            Proto { x: Y, v: Var(Z) },
        ],
        "fault 10 ring\n",
    ),
];

/// What is read of a field that stands so many prototypes further on.
fn read_after(alloc: Global, prototypes: u32) -> Result<Vec<u8>, Fail> {
    let mut commands = Vec::new(alloc);
    commands.push(NEW_Z)?;
    commands.push(Set {
        x: Z,
        f: A,
        v: Int(7),
    })?;
    for _turn in 0..prototypes {
        commands.push(NEW_X)?;
        commands.push(Proto { x: X, v: Var(Z) })?;
        commands.push(LetValue { x: Z, v: Var(X) })?;
    }
    commands.push(GET)?;
    commands.push(PRINT)?;
    written(alloc, &commands)
}

#[test]
fn fields_are_found_along_prototypes(rt: HostRuntime) -> Result<(), Fail> {
    for (commands, output) in FIELDS {
        assert_eq!(rt;
            written(rt.alloc(), commands)?.as_slice(),
            output.as_bytes(),
            "{output}"
        );
    }
    Ok(())
}

#[test]
fn prototypes_are_plain_objects_in_no_ring(rt: HostRuntime) -> Result<(), Fail> {
    for (commands, output) in FAULTS {
        assert_eq!(rt;
            written(rt.alloc(), commands)?.as_slice(),
            output.as_bytes(),
            "{output}"
        );
    }
    Ok(())
}

#[test]
fn a_field_is_looked_for_in_sixty_four_prototypes(rt: HostRuntime) -> Result<(), Fail> {
    for (prototypes, output) in [(0, "7\n"), (63, "7\n"), (64, "7\n"), (65, "undefined\n")] {
        assert_eq!(rt;
            read_after(rt.alloc(), prototypes)?.as_slice(),
            output.as_bytes()
        );
    }
    Ok(())
}
