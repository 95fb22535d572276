//! What a line does: its command, with the arguments that its operands are.
ghost use Rattle.std.specs.Prelude.{◌≡◌};
ghost use Rattle.script_text.specs.Fitting.{AreOfKinds};
ghost use Rattle.script_text.specs.Scripts.{argument_at, what_of};
ghost use Rattle.script_text.specs.Table.{places_of};

use crate::script::What;
use crate::table::Keyword;
use heap_command::{Command, Operand};

/// An operand whose names stand by their numbers.
#[derive(Clone, Copy)]
pub enum Argument {
    /// A variable, by its number.
    Variable(u32),
    /// A field, by its number.
    Field(u32),
    /// An integer of the range of its place.
    Literal(u32),
    /// A value.
    Value(Operand),
}

/// What a command is with these arguments, of which each is what its place wants. A `repeat` ends at the first place,
/// and an `end` ends the `repeat` at the second.
pub(crate) fn what_of(end_at: u32, repeat_at: u32, keyword: Keyword, arguments: &[Argument]) -> What
    requires { AreOfKinds (places_of keyword) arguments.now }
    ensures { let argument = argument_at arguments.now in
        result ≡ what_of end_at repeat_at keyword (argument 0) (argument 1) (argument 2) }
{
    use Argument::{Field, Literal, Value, Variable};
    What::Run(match (keyword, arguments) {
        (Keyword::New, [Variable(x), Literal(cap)]) => Command::New { x: *x, cap: *cap },
        (Keyword::List, [Variable(x)]) => Command::List { x: *x },
        (Keyword::Weak, [Variable(x)]) => Command::Weak { x: *x },
        (Keyword::Let, [Variable(x), Value(v)]) => Command::LetValue { x: *x, v: *v },
        (Keyword::Drop, [Variable(x)]) => Command::DropVar { x: *x },
        (Keyword::Add, [Variable(x), Value(v)]) => Command::Add { x: *x, v: *v },
        (Keyword::Set, [Variable(x), Field(f), Value(v)]) => Command::Set {
            x: *x,
            f: *f,
            v: *v,
        },
        (Keyword::Get, [Variable(y), Variable(x), Field(f)]) => Command::Get {
            y: *y,
            x: *x,
            f: *f,
        },
        (Keyword::Del, [Variable(x), Field(f)]) => Command::Del { x: *x, f: *f },
        (Keyword::Proto, [Variable(x), Value(v)]) => Command::Proto { x: *x, v: *v },
        (Keyword::Push, [Variable(x), Value(v)]) => Command::Push { x: *x, v: *v },
        (Keyword::Put, [Variable(x), Value(i), Value(v)]) => Command::Put {
            x: *x,
            i: *i,
            v: *v,
        },
        (Keyword::At, [Variable(y), Variable(x), Value(i)]) => Command::At {
            y: *y,
            x: *x,
            i: *i,
        },
        (Keyword::Shift, [Variable(x), Value(n)]) => Command::Shift { x: *x, n: *n },
        (Keyword::Trunc, [Variable(x), Value(n)]) => Command::Trunc { x: *x, n: *n },
        (Keyword::WPut, [Variable(m), Value(k), Value(v)]) => Command::WPut {
            m: *m,
            k: *k,
            v: *v,
        },
        (Keyword::WGet, [Variable(y), Variable(m), Value(k)]) => Command::WGet {
            y: *y,
            m: *m,
            k: *k,
        },
        (Keyword::WDel, [Variable(m), Value(k)]) => Command::WDel { m: *m, k: *k },
        (Keyword::Print, [Value(v)]) => Command::Print { v: *v },
        (Keyword::Same, [Value(a), Value(b)]) => Command::Same { a: *a, b: *b },
        (Keyword::Alike, [Variable(x), Variable(y)]) => Command::Alike { x: *x, y: *y },
        (Keyword::Shape, [Variable(x)]) => Command::Shape { x: *x },
        (Keyword::Repeat, [Literal(times)]) => return What::Repeat {
            times: *times,
            end_at,
        },
        (Keyword::End, _) => return What::End { repeat_at },
        (Keyword::Scavenge, _) => Command::Scavenge,
        (Keyword::Mark, _) => Command::Mark,
        (Keyword::Finish, _) => Command::Finish,
        (Keyword::Gc, _) => Command::Gc,
        (Keyword::Census, _) => Command::Census,
        _ => unreachable!(),
    })
}
