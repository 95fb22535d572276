//! What a command reads: variables, operands, and the objects that values refer to. A read changes
//! nothing. The fields of an object are read by `shape_change`.
ghost use Rattle.std.specs.Prelude.{◌≡◌, ◌<◌, ℕ, IfSome, IsNone, option_and_then};
ghost use Rattle.std.specs.FinMap.{get};
ghost use Rattle.heap_command.specs.Commands.{NamesBelow};
ghost use Rattle.object_graph.specs.Graphs.{Graph, value_of, integer_in};
ghost use Rattle.object_graph.specs.declared.value.Value.{Value};
ghost use Rattle.handle_roots.specs.declared.held.Held.TheVariants.{Ref};
ghost use Rattle.handle_roots.specs.Roots.{Holds};
ghost use Rattle.write_barrier.specs.Seats.{heap_words};
ghost use Rattle.write_barrier.specs.MutatorState.{Mutator, MainShows};
ghost use Rattle.mutator.specs.Reading.{StandsFor, Finds, FindsBoth, IsShownValue, FindsObject, FindsPlain};
ghost use Rattle.mutator.specs.Reading.{FindsInteger, FindsKey, FindsList, FindsWeak};
ghost use Rattle.mutator.specs.Reading.{FindsGiven, FindsHeader, IsSmallWord, LacksPlain};

use handle_roots::{Given, Held};
use heap_command::{FaultWord, Operand};
use tagged_word::{Header, Word, shape};
use write_barrier::Main;

/// An object: where its cell stands, and its shape.
#[derive(Clone, Copy)]
pub(crate) struct Found {
    pub(crate) at: u32,
    pub(crate) shape: u32,
}

/// What the variable is bound to.
#[inline(always)]
pub(crate) fn bound(main: &mut Main, x: u32) -> Result<Held, FaultWord>
    requires shown { (graph : Graph) × MainShows main.old graph }
    requires within { x < main.old.seat.space.variables }
    ensures found { (graph : Graph) → MainShows main.old graph →
        Finds main.old graph (get graph.bindings x) result }
    ensures same { main.new ≡ main.old }
{
    match main.held(x) {
        Held::Unbound => Err(FaultWord::Unbound),
        held => Ok(held),
    }
}

/// The same for a command that wants an object, which is told apart at once.
#[inline(always)]
pub(crate) fn target(main: &mut Main, x: u32) -> Result<Held, FaultWord>
    requires shown { (graph : Graph) × MainShows main.old graph }
    requires within { x < main.old.seat.space.variables }
    ensures found { (graph : Graph) → MainShows main.old graph →
        Finds main.old graph (get graph.bindings x) result }
    ensures same { main.new ≡ main.old }
{
    match main.referred(x) {
        Some(at) => Ok(Held::Ref(at)),
        None => bound(main, x),
    }
}

/// The value that the operand stands for.
#[inline(always)]
pub(crate) fn operand(main: &mut Main, v: Operand) -> Result<Held, FaultWord>
    requires shown { (graph : Graph) × MainShows main.old graph }
    requires within { NamesBelow main.old.seat.space.variables v }
    ensures found { (graph : Graph) → MainShows main.old graph →
        Finds main.old graph (value_of graph v) result }
    ensures same { main.new ≡ main.old }
{
    match v {
        Operand::Int(v) => Ok(Held::Int(v)),
        Operand::Undefined => Ok(Held::Undefined),
        Operand::Var(x) => bound(main, x),
    }
}

/// The value that the operand stands for, of a command that wants an object, which is told apart at once.
#[inline(always)]
fn first_operand(main: &mut Main, v: Operand) -> Result<Held, FaultWord>
    requires shown { (graph : Graph) × MainShows main.old graph }
    requires within { NamesBelow main.old.seat.space.variables v }
    ensures found { (graph : Graph) → MainShows main.old graph →
        Finds main.old graph (value_of graph v) result }
    ensures same { main.new ≡ main.old }
{
    match v {
        Operand::Var(x) => target(main, x),
        other => operand(main, other),
    }
}

/// The values that two operands stand for. Both are read before either is judged: `unbound` comes
/// before all other faults.
#[inline(always)]
pub(crate) fn operands(main: &mut Main, a: Operand, b: Operand) -> Result<(Held, Held), FaultWord>
    requires shown { (graph : Graph) × MainShows main.old graph }
    requires first { NamesBelow main.old.seat.space.variables a }
    requires second { NamesBelow main.old.seat.space.variables b }
    ensures found { (graph : Graph) → MainShows main.old graph →
        FindsBoth main.old graph (value_of graph a) (value_of graph b) result }
    ensures same { main.new ≡ main.old }
{
    let first = first_operand(main, a)?;
    // Most commands begin with an object. That it is one is told apart before the second operand is
    // read: it would be carried through that, and asked for again.
    match first {
        Held::Ref(at) => Ok((Held::Ref(at), operand(main, b)?)),
        other => Ok((other, operand(main, b)?)),
    }
}

/// The value that the operand stands for, by the word that a slot has for it, where a slot has one. None where its
/// variable is unbound.
#[inline(always)]
pub(crate) fn given(main: &mut Main, v: &Operand) -> Option<Given>
    requires shown { (graph : Graph) × MainShows main.old graph }
    requires within { NamesBelow main.old.seat.space.variables v.now }
    ensures found { (graph : Graph) → MainShows main.old graph →
        FindsGiven main.old graph (value_of graph v.now) result }
    ensures same { main.new ≡ main.old }
{
    match v {
        Operand::Int(v) => Some(Given::integer(*v)),
        Operand::Undefined => Some(Given::undefined()),
        Operand::Var(x) => main.given(*x),
    }
}

/// The word of the small integer that the operand stands for, if it stands for one.
#[inline(always)]
pub(crate) fn small_word(main: &mut Main, v: &Operand) -> Option<Word>
    requires shown { (graph : Graph) × MainShows main.old graph }
    requires within { NamesBelow main.old.seat.space.variables v.now }
    ensures found { IfSome result (λ word. (graph : Graph) → MainShows main.old graph →
        IsSmallWord (value_of graph v.now) word) }
    ensures same { main.new ≡ main.old }
{
    match v {
        Operand::Var(x) => main.small_word(*x),
        Operand::Int(v) => Word::small(*v),
        Operand::Undefined => None,
    }
}

/// Where the cell of the object stands that the variable is bound to, and its header, if it is bound to one.
#[inline(always)]
pub(crate) fn headed(main: &mut Main, x: u32) -> Option<(u32, Header)>
    requires shown { (graph : Graph) × MainShows main.old graph }
    requires within { x < main.old.seat.space.variables }
    ensures found { IfSome result (λ found. (graph : Graph) → MainShows main.old graph →
        FindsHeader main.old graph (get graph.bindings x) found.0 found.1) }
    ensures none { let words = heap_words main.old.seat in
        IsNone result → (at : ℕ) → ¬ Holds main.old.seat.space words x (Ref at) }
    ensures same { main.new ≡ main.old }
{
    let at = main.referred(x)?;
    Some((at, main.header(at)))
}

/// Why a command that wants an object stops, where the variable is bound to none.
#[cold]
#[inline(never)]
pub(crate) fn why_no_object(main: &mut Main, x: u32) -> FaultWord
    requires shown { (graph : Graph) × MainShows main.old graph }
    requires within { x < main.old.seat.space.variables }
    requires none { let words = heap_words main.old.seat in
        (at : ℕ) → ¬ Holds main.old.seat.space words x (Ref at) }
    ensures lacks { (graph : Graph) → MainShows main.old graph →
        LacksPlain graph (get graph.bindings x) result }
    ensures same { main.new ≡ main.old }
{
    match main.held(x) {
        Held::Unbound => FaultWord::Unbound,
        _ => FaultWord::NotObject,
    }
}

/// The object that the value refers to.
#[inline(always)]
fn object(main: &Main, held: Held) -> Option<Found>
    requires { IsShownValue main.now held }
    ensures { (graph : Graph) (value : Value) → MainShows main.now graph →
        StandsFor main.now graph value held → FindsObject main.now graph value result }
{
    match held {
        Held::Ref(at) => {
            let shape = main.header(at).shape;
            Some(Found { at, shape })
        }
        Held::Unbound | Held::Undefined | Held::Int(_) => None,
    }
}

/// The plain object that the value refers to.
#[inline(always)]
pub(crate) fn plain(main: &Main, held: Held) -> Result<Found, FaultWord>
    requires { IsShownValue main.now held }
    ensures { (graph : Graph) (value : Value) → MainShows main.now graph →
        StandsFor main.now graph value held → FindsPlain main.now graph value result }
{
    let Some(found) = object(main, held) else {
        return Err(FaultWord::NotObject);
    };
    // The shapes before those of the paths are those of lists, weak maps and cells of no object.
    if found.shape < shape::PATHS {
        return Err(FaultWord::NotObject);
    }
    Ok(found)
}

/// Where the cell of the list stands that the value refers to.
#[inline(always)]
pub(crate) fn find_list(main: &Main, held: Held) -> Result<u32, FaultWord>
    requires { IsShownValue main.now held }
    ensures { (graph : Graph) (value : Value) → MainShows main.now graph →
        StandsFor main.now graph value held → FindsList main.now graph value result }
{
    let Some(found) = object(main, held) else {
        return Err(FaultWord::NotList);
    };
    if found.shape != shape::LIST {
        return Err(FaultWord::NotList);
    }
    Ok(found.at)
}

/// Where the cell of the weak map stands that the value refers to.
#[inline(always)]
pub(crate) fn find_weak_map(main: &Main, held: Held) -> Result<u32, FaultWord>
    requires { IsShownValue main.now held }
    ensures { (graph : Graph) (value : Value) → MainShows main.now graph →
        StandsFor main.now graph value held → FindsWeak main.now graph value result }
{
    let Some(found) = object(main, held) else {
        return Err(FaultWord::NotWeak);
    };
    if found.shape != shape::WEAK {
        return Err(FaultWord::NotWeak);
    }
    Ok(found.at)
}

/// Where the cell of the object stands that is the key.
#[inline(always)]
pub(crate) fn key(held: Held) -> Result<u32, FaultWord>
    ensures { (main : Mutator) (graph : Graph) (value : Value) → StandsFor main graph value held →
        FindsKey main graph value result }
{
    match held {
        Held::Ref(at) => Ok(at),
        Held::Unbound | Held::Undefined | Held::Int(_) => Err(FaultWord::BadKey),
    }
}

/// The integer that the value is.
#[inline(always)]
pub(crate) fn integer(held: Held) -> Result<i64, FaultWord>
    ensures { (main : Mutator) (graph : Graph) (value : Value) → StandsFor main graph value held →
        FindsInteger value result }
{
    match held {
        Held::Int(v) => Ok(v),
        Held::Unbound | Held::Undefined | Held::Ref(_) => Err(FaultWord::NotInt),
    }
}

/// The integer that the operand stands for, if it stands for one.
#[inline(always)]
pub(crate) fn integer_of(main: &mut Main, v: Operand) -> Option<i64>
    requires shown { (graph : Graph) × MainShows main.old graph }
    requires within { NamesBelow main.old.seat.space.variables v }
    ensures found { (graph : Graph) → MainShows main.old graph →
        result ≡ option_and_then integer_in (value_of graph v) }
    ensures same { main.new ≡ main.old }
{
    match operand(main, v) {
        Ok(held) => integer(held).ok(),
        Err(_) => None,
    }
}
