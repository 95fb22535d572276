//! What scripts say, and what can be reached after them, by values from the language's description.

use heap_command::Command::{Census, Finish, Gc, Mark, Scavenge};
use ideal_graph::{Ideal, IdealStop, Value, is_marked};
use script_text::{Script, What, parse};
use std::alloc::Global;
use std::test::Fail;

/// A new graph, whose fields have the script's names.
fn new_graph(alloc: Global, script: &Script<'_>) -> Result<Ideal, Fail> {
    let mut names = Vec::new(alloc);
    for field in 0..script.fields() {
        names.push(Vec::from_slice(alloc, script.field(field))?)?;
    }
    Ok(Ideal::new(alloc, names)?)
}

/// The graph of a script without `repeat` after its last line or its first fault, and what is
/// written. A fault is written as the program writes it.
pub(crate) fn told(alloc: Global, source: &[u8]) -> Result<(Ideal, Vec<u8>), Fail> {
    let script = parse(alloc, source)?;
    let mut ideal = new_graph(alloc, &script)?;
    let mut text = Vec::new(alloc);
    for line in script.lines() {
        let What::Run(command) = line.what else {
            return Err(Fail::from("a line runs no command"));
        };
        match ideal.step(&command) {
            Ok(said) => text.extend_from_slice(&said.text)?,
            Err(IdealStop::ScriptFault(word)) => {
                let fault = format!(in alloc; "fault {} {}\n", line.number, word.text())?;
                text.extend_from_slice(fault.as_bytes())?;
                break;
            }
            Err(stop) => return Err(Fail::from(stop)),
        }
    }
    Ok((ideal, text))
}

/// What a script writes; a mark for each of the first six objects, `1` where it can be reached, and how
/// many objects and entries can be; and what the collections and then a census write.
fn all_told(alloc: Global, source: &[u8]) -> Result<Vec<u8>, Fail> {
    let (mut ideal, mut text) = told(alloc, source)?;
    let marks = ideal.reachable()?;
    for number in 0..6 {
        text.push(if is_marked(&marks, number) {
            b'1'
        } else {
            b'-'
        })?;
    }
    let census = ideal.reach()?;
    let counts = format!(in alloc; " {} {}\n", census.objects, census.entries)?;
    text.extend_from_slice(counts.as_bytes())?;
    for command in [Scavenge, Mark, Finish, Gc, Census] {
        text.extend_from_slice(&ideal.step(&command)?.text)?;
    }
    Ok(text)
}

/// Scripts that write, and all that is told of them.
const WRITING: [(&[u8], &[u8]); 9] = [
    (b"print 5", b"5\n------ 0 0\nobjects 0 entries 0\n"),
    (
        b"print undefined\nprint -9223372036854775808",
        b"undefined\n-9223372036854775808\n------ 0 0\nobjects 0 entries 0\n",
    ),
    (
        b"new x 2\nlist y\nweak x\nprint x\nprint y",
        b"weak 2\nlist 1\n-11--- 2 0\nobjects 2 entries 0\n",
    ),
    (
        b"new x 2\nget y x a\nprint x\nprint y\nlet x -7\nadd x 9\nprint x",
        b"object 0\nundefined\n2\n------ 0 0\nobjects 0 entries 0\n",
    ),
    // A field widens, and never narrows.
    (
        b"new x 2\nset x a 1073741823\nshape x\nset x a 1073741824\nshape x\nset x a x\nshape x\n\
         set x a -9223372036854775808\nshape x\nget y x a\nprint y",
        b"cap 2 a:small\ncap 2 a:wide\ncap 2 a:tagged\ncap 2 a:tagged\n-9223372036854775808\n\
          1----- 1 0\nobjects 1 entries 0\n",
    ),
    // A field that is taken out leaves its place.
    (
        b"new x 3\nset x a 1\nset x b 5000000000\nset x c x\ndel x b\nget y x a\nprint y\n\
         get y x b\nprint y\nget y x c\nprint y\nshape x\nset x b 7\nshape x",
        b"1\nundefined\nobject 0\ncap 3 a:small c:tagged\ncap 3 a:small c:tagged b:small\n\
          1----- 1 0\nobjects 1 entries 0\n",
    ),
    (
        b"new x 0\nnew y 0\nnew z 1\nalike x y\nalike x z\nsame x x\nsame x y\nsame 3 3",
        b"true\nfalse\ntrue\nfalse\ntrue\n111--- 3 0\nobjects 3 entries 0\n",
    ),
    (
        b"list x\npush x 1\npush x 3\nput x 0 2\nat z x 0\nprint z\nshift x 1\nat z x 0\nprint z\ntrunc x 0\nat z x 0",
        b"2\n3\nfault 11 range\n1----- 1 0\nobjects 1 entries 0\n",
    ),
    (
        b"weak x\nnew y 0\nwput x y 1\nwdel x y\nwget z x y\nprint z",
        b"undefined\n11---- 2 0\nobjects 2 entries 0\n",
    ),
];

/// Scripts after which some objects cannot be reached.
const REACHING: [(&[u8], &[u8]); 8] = [
    // What no variable leads to is not reached, as an object that only refers to itself.
    (b"new x 1\nset x s x", b"1----- 1 0\nobjects 1 entries 0\n"),
    (
        b"new x 1\nset x s x\ndrop x",
        b"------ 0 0\nobjects 0 entries 0\n",
    ),
    // An entry keeps its value while its key is reached.
    (
        b"weak m\nnew k 0\nnew v 1\nwput m k v\ndrop v",
        b"111--- 3 1\nobjects 3 entries 1\n",
    ),
    (
        b"weak m\nnew k 0\nnew v 1\nwput m k v\ndrop v\ndrop k",
        b"1----- 1 0\nobjects 1 entries 0\n",
    ),
    // An entry does not keep its key by its value.
    (
        b"weak m\nnew k 0\nnew v 1\nset v s k\nwput m k v\ndrop v",
        b"111--- 3 1\nobjects 3 entries 1\n",
    ),
    (
        b"weak m\nnew k 0\nnew v 1\nset v s k\nwput m k v\ndrop v\ndrop k",
        b"1----- 1 0\nobjects 1 entries 0\n",
    ),
    // Entries keep one another across maps.
    (
        b"weak a\nweak b\nnew k 0\nnew p 0\nnew q 0\nwput b p q\nwput a k p\ndrop p\ndrop q",
        b"11111- 5 2\nobjects 5 entries 2\n",
    ),
    (
        b"weak a\nweak b\nnew k 0\nnew p 0\nnew q 0\nwput b p q\nwput a k p\ndrop p\ndrop q\n\
         wget y a k\nwget z b y\nprint z\ndrop y\ndrop z\ndrop k",
        b"object 4\n11---- 2 0\nobjects 2 entries 0\n",
    ),
];

/// Scripts with a fault. What stands after it is not carried out.
const FAULTY: [(&[u8], &[u8]); 8] = [
    (
        b"drop x",
        b"fault 1 unbound\n------ 0 0\nobjects 0 entries 0\n",
    ),
    (
        b"get y x a\nprint 1",
        b"fault 1 unbound\n------ 0 0\nobjects 0 entries 0\n",
    ),
    (
        b"list x\nset x a 1",
        b"fault 2 notobject\n1----- 1 0\nobjects 1 entries 0\n",
    ),
    (
        b"new x 0\npush x 1",
        b"fault 2 notlist\n1----- 1 0\nobjects 1 entries 0\n",
    ),
    (
        b"new x 0\nwput x x 1",
        b"fault 2 notweak\n1----- 1 0\nobjects 1 entries 0\n",
    ),
    (
        b"weak x\nwput x 3 1",
        b"fault 2 badkey\n1----- 1 0\nobjects 1 entries 0\n",
    ),
    (
        b"let x undefined\nadd x 1",
        b"fault 2 notint\n------ 0 0\nobjects 0 entries 0\n",
    ),
    (
        b"let x 9223372036854775807\nadd x 1\nprint x",
        b"fault 2 overflow\n------ 0 0\nobjects 0 entries 0\n",
    ),
];

#[test]
fn scripts_write_what_the_language_says(rt: HostRuntime) -> Result<(), Fail> {
    for (source, all) in WRITING {
        assert_eq!(rt; all_told(rt.alloc(), source)?.as_slice(), all);
    }
    Ok(())
}

#[test]
fn what_no_variable_leads_to_is_not_reached(rt: HostRuntime) -> Result<(), Fail> {
    for (source, all) in REACHING {
        assert_eq!(rt; all_told(rt.alloc(), source)?.as_slice(), all);
    }
    Ok(())
}

#[test]
fn faults_stop_scripts(rt: HostRuntime) -> Result<(), Fail> {
    for (source, all) in FAULTY {
        assert_eq!(rt; all_told(rt.alloc(), source)?.as_slice(), all);
    }
    Ok(())
}

#[test]
fn a_graph_lends_what_it_has(rt: HostRuntime) -> Result<(), Fail> {
    let (ideal, _) = told(rt.alloc(), b"list x\nnew y 0\nset y a 1\nlet x 7\ndrop y")?;
    assert_eq!(rt; ideal.objects().len(), 2);
    assert_eq!(rt; ideal.paths().len(), 10);
    assert_eq!(rt; ideal.binding(0), Some(Value::Int(7)));
    assert_eq!(rt; ideal.binding(1), None);
    assert!(rt; ideal.is_unbound_from(1) && !ideal.is_unbound_from(0));
    Ok(())
}
