//! The commands `let`, `drop` and `add`, on what variables are bound to. How a variable is bound to
//! a field is said in `fields.rt`, and to a new object in `making.rt`.
ghost use Rattle.std.specs.Prelude.{◌≡◌, ℕ, ℤ, false, List, [], Result, Some, OnOk, IsTrue, IfSome};
ghost use Rattle.std.specs.Prelude.{option_and_then};
ghost use Rattle.tagged_word.specs.Words.{small};
ghost use Rattle.heap_command.specs.Commands.{IsWithin, NamesBelow};
ghost use Rattle.write_barrier.specs.Seats.{heap_words};
ghost use Rattle.handle_roots.specs.declared.held.Held.TheVariants.{Int};
ghost use Rattle.handle_roots.specs.Roots.{Holds};
ghost use Rattle.object_graph.specs.Graphs.{Graph, value_of, integer_in};
ghost use Rattle.write_barrier.specs.MutatorState.{MainShows};
ghost use Rattle.mutator.specs.declared.stop.Stop.{Stop as Why};
ghost use Rattle.mutator.specs.Binding.{Binds};
ghost use Rattle.mutator.specs.Reading.{FindsSum};
ghost use Rattle.mutator.specs.CarriesOut.{Carries, field_numbers};

use crate::lookups::{bound, integer, integer_of, operands};
use crate::outcome::Outcome;
use crate::stop::Stop;
use handle_roots::Held;
use heap_command::{Command, FaultWord, Operand};
use tagged_word::is_small;
use write_barrier::Main;

/// An integer below this, and not below its negative, has a sum of 64 bits with each small one.
const SUM_FITS: i64 = 1 << 62;

/// Binds `x` to the value. What another variable is bound to is copied, whatever it is.
///
/// Stops with `unbound`.
#[inline(always)]
pub fn let_value(main: &mut Main, x: u32, v: Operand) -> Result<(), Stop>
    requires shown { (graph : Graph) × MainShows main.old graph }
    requires within { IsWithin main.old.seat.space.variables field_numbers (Command.LetValue x v) }
    ensures carried { (graph : Graph) (names : List (List ℕ)) → MainShows main.old graph →
        Carries names main.old main.new graph (Command.LetValue x v) [] result }
    ensures binds { OnOk result (Binds main.old main.new x) }
{
    match v {
        Operand::Int(v) => main.hold(x, Held::Int(v)),
        Operand::Undefined => main.hold(x, Held::Undefined),
        Operand::Var(from) => {
            // Judged before the write: a command that stops leaves `x` as it was.
            if !main.is_bound(from) {
                return Err(Stop::Fault(FaultWord::Unbound));
            }
            main.copy(from, x);
        }
    }
    Ok(())
}

/// Unbinds `x`. The words of what it was bound to stay used.
///
/// Stops with `unbound` where it is bound to nothing.
#[inline(always)]
pub fn drop_var(main: &mut Main, x: u32) -> Result<(), Stop>
    requires shown { (graph : Graph) × MainShows main.old graph }
    requires within { IsWithin main.old.seat.space.variables field_numbers (Command.DropVar x) }
    ensures carried { (graph : Graph) (names : List (List ℕ)) → MainShows main.old graph →
        Carries names main.old main.new graph (Command.DropVar x) [] result }
    ensures binds { OnOk result (Binds main.old main.new x) }
{
    // Judged before the write: an unbound variable does not tell whether it was bound.
    bound(main, x)?;
    main.hold(x, Held::Unbound);
    Ok(())
}

/// Binds `x` to the sum of its integer and the value. A sum that is small where `x` held a small integer puts the first
/// root word of `x` alone, and one that is wide where it held a wide integer the second.
///
/// Stops with `unbound`, `notint`, or `overflow` where the sum is outside 64 bits.
#[inline(always)]
pub fn add<O: Outcome>(main: &mut Main, x: u32, v: &Operand) -> O
    requires shown { (graph : Graph) × MainShows main.old graph }
    requires within { IsWithin main.old.seat.space.variables field_numbers (Command.Add x v.now) }
    ensures carried { (came : Result Unit Why) × O.Says result came
        × ((graph : Graph) (names : List (List ℕ)) → MainShows main.old graph →
        Carries names main.old main.new graph (Command.Add x v.now) [] came)
        × OnOk came (Binds main.old main.new x) }
{
    if let Some(sum) = small_sum(main, x, v) {
        main.replace_small(x, sum);
        return O::of(Ok(()));
    }
    if let Some(sum) = wide_sum(main, x, v) {
        main.replace_wide(x, sum);
        return O::of(Ok(()));
    }
    add_checked(main, x, v)
}

/// The same, whatever the variable and the operand are. Out of line: few additions come here, and what a `bool` says of
/// them stays in a register.
#[cold]
#[inline(never)]
fn add_checked<O: Outcome>(main: &mut Main, x: u32, v: &Operand) -> O
    requires shown { (graph : Graph) × MainShows main.old graph }
    requires within { IsWithin main.old.seat.space.variables field_numbers (Command.Add x v.now) }
    ensures carried { (came : Result Unit Why) × O.Says result came
        × ((graph : Graph) (names : List (List ℕ)) → MainShows main.old graph →
        Carries names main.old main.new graph (Command.Add x v.now) [] came)
        × OnOk came (Binds main.old main.new x) }
{
    O::of(bind_sum(main, x, v))
}

/// Binds `x` to the sum of its integer and the value.
#[inline(always)]
fn bind_sum(main: &mut Main, x: u32, v: &Operand) -> Result<(), Stop>
    requires shown { (graph : Graph) × MainShows main.old graph }
    requires within { IsWithin main.old.seat.space.variables field_numbers (Command.Add x v.now) }
    ensures carried { (graph : Graph) (names : List (List ℕ)) → MainShows main.old graph →
        Carries names main.old main.new graph (Command.Add x v.now) [] result }
    ensures binds { OnOk result (Binds main.old main.new x) }
{
    // Both are read before either is judged: `unbound` comes before `notint`.
    let (bound, added) = operands(main, Operand::Var(x), *v)?;
    let first = integer(bound)?;
    let second = integer(added)?;
    let Some(sum) = first.checked_add(second) else {
        return Err(Stop::Fault(FaultWord::Overflow));
    };
    main.hold(x, Held::Int(sum));
    Ok(())
}

/// The sum of the small integer that `x` holds and the value, if `x` holds one and the sum is small too.
#[inline(always)]
fn small_sum(main: &mut Main, x: u32, v: &Operand) -> Option<i64>
    requires shown { (graph : Graph) × MainShows main.old graph }
    requires within { IsWithin main.old.seat.space.variables field_numbers (Command.Add x v.now) }
    ensures found { IfSome result (λ sum. (graph : Graph) (names : List (List ℕ)) → MainShows main.old graph →
        FindsSum names graph x v.now sum) }
    ensures was { IfSome result (λ sum. IsTrue (small sum) × ((was : ℤ) × IsTrue (small was)
        × Holds main.old.seat.space (heap_words main.old.seat) x (Int was))) }
    ensures same { main.new ≡ main.old }
{
    let first = main.small(x)?;
    let second = integer_of(main, *v)?;
    // Beside a small integer, 64 bits that stand for a small one are those of the sum: one test serves for both.
    let sum = first.wrapping_add(second);
    if is_small(sum) { Some(sum) } else { None }
}

/// The sum of the integer that `x` holds and the value, if the value is a small integer, neither the other integer nor
/// the sum is small, and the sum can't wrap.
#[inline(always)]
fn wide_sum(main: &mut Main, x: u32, v: &Operand) -> Option<i64>
    requires shown { (graph : Graph) × MainShows main.old graph }
    requires within { IsWithin main.old.seat.space.variables field_numbers (Command.Add x v.now) }
    ensures found { IfSome result (λ sum. (graph : Graph) (names : List (List ℕ)) → MainShows main.old graph →
        FindsSum names graph x v.now sum) }
    ensures was { IfSome result (λ sum. (small sum ≡ false) × ((was : ℤ) × (small was ≡ false)
        × Holds main.old.seat.space (heap_words main.old.seat) x (Int was))) }
    ensures same { main.new ≡ main.old }
{
    let first = main.wide(x)?;
    let second = small_integer(main, v)?;
    if first < -SUM_FITS || first >= SUM_FITS {
        return None;
    }
    // Between these it does not wrap.
    let sum = first.wrapping_add(second);
    if is_small(sum) { None } else { Some(sum) }
}

/// The small integer that the operand is, or that its variable holds, if it is one.
#[inline(always)]
fn small_integer(main: &mut Main, v: &Operand) -> Option<i64>
    requires shown { (graph : Graph) × MainShows main.old graph }
    requires within { NamesBelow main.old.seat.space.variables v.now }
    ensures found { IfSome result (λ integer. IsTrue (small integer) × ((graph : Graph) → MainShows main.old graph →
        option_and_then integer_in (value_of graph v.now) ≡ Some integer)) }
    ensures same { main.new ≡ main.old }
{
    match v {
        Operand::Int(v) if is_small(*v) => Some(*v),
        Operand::Int(_) | Operand::Undefined => None,
        Operand::Var(x) => main.small(*x),
    }
}
