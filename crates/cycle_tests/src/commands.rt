//! Commands on a heap whose objects are counted, by the calls of `mutator`.
ghost use Rattle.std.specs.Prelude.{◌≡◌, ◌-◌, ◌<◌, ◌^◌, true, is_ok};
ghost use Rattle.heap_command.specs.Commands.{IsWithin, NamesBelow};
ghost use Rattle.mutator.specs.CarriesOut.{field_numbers};
ghost use Rattle.cycle_tests.specs.Ready.{IsReady, counted_more};

use heap_command::{CAP_MOST, Command, Operand};
use mutator::Stop;
use write_barrier::Main;

/// A command, by what it is given. Variables and fields stand by their numbers.
#[derive(Clone, Copy)]
pub(crate) enum Act {
    New(u32, u32),
    List(u32),
    Weak(u32),
    Let(u32, Operand),
    Unbind(u32),
    Set(u32, u32, Operand),
    Get(u32, u32, u32),
    Del(u32, u32),
    Proto(u32, Operand),
    Push(u32, Operand),
    Put(u32, Operand, Operand),
    At(u32, u32, Operand),
    Shift(u32, Operand),
    Trunc(u32, Operand),
    WPut(u32, Operand, Operand),
    WGet(u32, u32, Operand),
    WDel(u32, Operand),
}

/// The command of an act.
fn command_of(act: Act) -> Command {
    match act {
        Act::New(x, cap) => Command::New { x, cap },
        Act::List(x) => Command::List { x },
        Act::Weak(x) => Command::Weak { x },
        Act::Let(x, v) => Command::LetValue { x, v },
        Act::Unbind(x) => Command::DropVar { x },
        Act::Set(x, f, v) => Command::Set { x, f, v },
        Act::Get(y, x, f) => Command::Get { y, x, f },
        Act::Del(x, f) => Command::Del { x, f },
        Act::Proto(x, v) => Command::Proto { x, v },
        Act::Push(x, v) => Command::Push { x, v },
        Act::Put(x, i, v) => Command::Put { x, i, v },
        Act::At(y, x, i) => Command::At { y, x, i },
        Act::Shift(x, n) => Command::Shift { x, n },
        Act::Trunc(x, n) => Command::Trunc { x, n },
        Act::WPut(m, k, v) => Command::WPut { m, k, v },
        Act::WGet(y, m, k) => Command::WGet { y, m, k },
        Act::WDel(m, k) => Command::WDel { m, k },
    }
}

/// Whether the operand is of a variable below this number, or of none.
fn names(v: Operand, variables: u32) -> bool
    ensures { result ≡ true → NamesBelow variables v }
{
    match v {
        Operand::Int(_) | Operand::Undefined => true,
        Operand::Var(x) => x < variables,
    }
}

/// Whether the command is of variables below this number.
fn is_within(command: Command, variables: u32) -> bool
    ensures { result ≡ true → IsWithin variables field_numbers command }
{
    match command {
        Command::New { x, cap } => x < variables && cap <= CAP_MOST,
        Command::List { x } => x < variables,
        Command::Weak { x } => x < variables,
        Command::LetValue { x, v } => x < variables && names(v, variables),
        Command::DropVar { x } => x < variables,
        Command::Set { x, f: _, v } => x < variables && names(v, variables),
        Command::Get { y, x, f: _ } => y < variables && x < variables,
        Command::Del { x, f: _ } => x < variables,
        Command::Proto { x, v } => x < variables && names(v, variables),
        Command::Push { x, v } => x < variables && names(v, variables),
        Command::Put { x, i, v } => x < variables && names(i, variables) && names(v, variables),
        Command::At { y, x, i } => y < variables && x < variables && names(i, variables),
        Command::Shift { x, n } => x < variables && names(n, variables),
        Command::Trunc { x, n } => x < variables && names(n, variables),
        Command::WPut { m, k, v } => m < variables && names(k, variables) && names(v, variables),
        Command::WGet { y, m, k } => y < variables && m < variables && names(k, variables),
        Command::WDel { m, k } => m < variables && names(k, variables),
        _ => false,
    }
}

/// Counts an object more, if it was made.
fn counted(made: Result<(), Stop>, objects: &mut u32) -> bool
    requires few { objects.old < 2 ^ 32 - 1 }
    ensures says { result ≡ is_ok made }
    ensures counted { objects.new ≡ counted_more objects.old made }
{
    if made.is_ok() {
        *objects += 1;
    }
    made.is_ok()
}

/// Executes a command that neither writes nor collects. `objects` counts the objects that were made.
fn execute(main: &mut Main, objects: &mut u32, command: Command) -> bool
    requires ready { IsReady main.old objects.old }
    requires within { IsWithin main.old.seat.space.variables field_numbers command }
    requires few { objects.old < 2 ^ 32 - 1 }
    ensures ready { IsReady main.new objects.new }
    ensures phase { main.new.seat.phase ≡ main.old.seat.phase }
{
    match command {
        Command::New { x, cap } => counted(mutator::new_plain(main, x, *objects, cap), objects),
        Command::List { x } => counted(mutator::new_list(main, x, *objects), objects),
        Command::Weak { x } => counted(mutator::new_weak(main, x, *objects), objects),
        Command::LetValue { x, v } => mutator::let_value(main, x, v).is_ok(),
        Command::DropVar { x } => mutator::drop_var(main, x).is_ok(),
        Command::Set { x, f, v } => mutator::set(main, x, f, &v),
        Command::Get { y, x, f } => mutator::get(main, y, x, f),
        Command::Del { x, f } => mutator::del(main, x, f).is_ok(),
        Command::Proto { x, v } => mutator::proto(main, x, v).is_ok(),
        Command::Push { x, v } => mutator::push(main, x, v).is_ok(),
        Command::Put { x, i, v } => mutator::put(main, x, i, v).is_ok(),
        Command::At { y, x, i } => mutator::at(main, y, x, i).is_ok(),
        Command::Shift { x, n } => mutator::shift(main, x, n).is_ok(),
        Command::Trunc { x, n } => mutator::trunc(main, x, n).is_ok(),
        Command::WPut { m, k, v } => mutator::wput(main, m, k, v).is_ok(),
        Command::WGet { y, m, k } => mutator::wget(main, y, m, k).is_ok(),
        Command::WDel { m, k } => mutator::wdel(main, m, k).is_ok(),
        _ => false,
    }
}

/// Carries out the command of an act, if it is of variables that there are. Returns whether it was carried out.
pub(crate) fn carry_out(main: &mut Main, objects: &mut u32, act: Act) -> bool
    requires ready { IsReady main.old objects.old }
    ensures ready { IsReady main.new objects.new }
    ensures phase { main.new.seat.phase ≡ main.old.seat.phase }
{
    let command = command_of(act);
    if *objects == u32::MAX || !is_within(command, main.regions().variables()) {
        return false;
    }
    execute(main, objects, command)
}
