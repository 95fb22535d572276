//! Sources with what they are read as.

use heap_command::{Command, Operand};
use script_text::{BadScript, What, Why, parse};
use std::test::Fail;

#[test]
fn a_source_is_read_as_its_lines_and_names(rt: HostRuntime) -> Result<(), Fail> {
    let source =
        b"new x 2\n# two\nset x a 5\nrepeat 3\n  repeat 0\n\tget y x a\r\n  end\nend\nprint y # y";
    let script = parse(rt.alloc(), source).expect(&rt, "the source is a script");
    let v = Operand::Int(5);
    let expected = [
        (1, What::Run(Command::New { x: 0, cap: 2 })),
        (3, What::Run(Command::Set { x: 0, f: 0, v })),
        (
            4,
            What::Repeat {
                times: 3,
                end_at: 6,
            },
        ),
        (
            5,
            What::Repeat {
                times: 0,
                end_at: 5,
            },
        ),
        (6, What::Run(Command::Get { y: 1, x: 0, f: 0 })),
        (7, What::End { repeat_at: 3 }),
        (8, What::End { repeat_at: 2 }),
        (9, What::Run(Command::Print { v: Operand::Var(1) })),
    ];
    let lines = script.lines();
    assert_eq!(rt; lines.len(), expected.len());
    for (line, (number, what)) in lines.iter().zip(&expected) {
        assert_eq!(rt; (line.number, line.what), (*number, *what));
    }
    assert_eq!(rt; (script.variables(), script.fields()), (2, 1));
    let names = (script.variable(0), script.variable(1), script.field(0));
    assert_eq!(rt; names, (b"x".as_slice(), b"y".as_slice(), b"a".as_slice()));
    Ok(())
}

#[test]
fn the_first_line_with_tokens_says_the_version(rt: HostRuntime) {
    let rows: [(&[u8], u32, u32); 4] = [
        (b"gc", 1, 1),
        (b"version 1\ngc", 1, 2),
        (b"version 2\n\ngc", 2, 3),
        (b"# note\n\n\tversion  2 # the version\r\ngc", 2, 4),
    ];
    for (source, version, number) in rows {
        let script = parse(rt.alloc(), source).expect(&rt, "the source is a script");
        assert_eq!(rt; (script.version(), script.lines().len()), (version, 1));
        for line in script.lines() {
            assert_eq!(rt; (line.number, line.what), (number, What::Run(Command::Gc)));
        }
    }
}

#[test]
fn version_2_gives_prototypes(rt: HostRuntime) {
    let source = b"version 2\nproto a b\nproto b undefined";
    let script = parse(rt.alloc(), source).expect(&rt, "the source is a script");
    let v = Operand::Undefined;
    let expected = [
        (
            2,
            Command::Proto {
                x: 0,
                v: Operand::Var(1),
            },
        ),
        (3, Command::Proto { x: 1, v }),
    ];
    let lines = script.lines();
    assert_eq!(rt; lines.len(), expected.len());
    for (line, (number, command)) in lines.iter().zip(&expected) {
        assert_eq!(rt; (line.number, line.what), (*number, What::Run(*command)));
    }
}

#[test]
fn another_source_is_refused_with_its_line_and_reason(rt: HostRuntime) {
    let rows: [(&[u8], u32, Why); 11] = [
        (b"print 1\nmake x", 2, Why::Command),
        (b"mark x", 1, Why::Count),
        (b"repeat 2", 1, Why::Open),
        (b"proto a b", 1, Why::Command),
        (b"version 1\nproto a b", 2, Why::Command),
        (b"version 2\nproto a", 2, Why::Count),
        (b"version 2\nversion 2", 2, Why::Command),
        (b"gc\nversion 2", 2, Why::Command),
        (b"version 3", 1, Why::Integer),
        (b"version", 1, Why::Count),
        (b"# note\n\nversion 1 2", 3, Why::Count),
    ];
    for (source, line, why) in rows {
        match parse(rt.alloc(), source) {
            Ok(_) => assert!(rt; false, "the source is refused"),
            Err(stop) => assert_eq!(rt; stop, BadScript::BadLine { line, why }),
        }
    }
}
