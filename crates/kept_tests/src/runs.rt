//! Runs of scripts, and the graphs of the lines that they executed.
ghost use Rattle.std.specs.Prelude.{◌<◌};

use heap_run::{Kept, MemSink, MemSource, OpenGate, run};
use ideal_graph::Ideal;
use script_text::{Line, Script, What, parse};
use std::alloc::Global;
use std::test::Fail;
use std::thread::Threads;

/// The status of a script's run, and what it keeps, with one page and so many young words.
pub(crate) fn run_kept<R: Threads + Sync + AllocGlobal>(
    rt: &R,
    young: &str,
    source: &[u8],
) -> Result<(u8, Kept), Fail> {
    let alloc = rt.alloc();
    let mut words = Vec::new(alloc);
    for word in ["run", "--pages", "1", "--helpers", "1", "--young", young] {
        words.push(String::from_str(alloc, word)?)?;
    }
    let mut from = MemSource::new(source.to_vec(alloc)?, 4096, Vec::new(alloc));
    let mut sink = MemSink::new(alloc, 1 << 20, 4096, Vec::new(alloc))?;
    let ended = run(rt, alloc, &words, &mut from, &mut sink, &OpenGate);
    Ok((ended.status, ended.kept.ok_or("no heap was kept")?))
}

/// The graph of so many executed lines of a script. No `repeat` stands in another, or has no turn.
pub(crate) fn meant(alloc: Global, source: &[u8], executed: u64) -> Result<Ideal, Fail> {
    let Ok(script) = parse(alloc, source) else {
        return Err(Fail::from("the script is bad"));
    };
    let mut ideal = empty(alloc, &script)?;
    let lines = script.lines();
    let mut at = 0;
    let mut turns = 0;
    for _line in 0..executed {
        if at >= lines.len() {
            return Err(Fail::from("more lines than the script has"));
        }
        at = step(&mut ideal, &lines[at], at, &mut turns);
    }
    Ok(ideal)
}

/// The graph without objects, for a script.
fn empty(alloc: Global, script: &Script<'_>) -> Result<Ideal, Fail> {
    let mut names = Vec::new(alloc);
    for field in 0..script.fields() {
        names.push(Vec::from_slice(alloc, script.field(field))?)?;
    }
    match Ideal::new(alloc, names) {
        Ok(ideal) => Ok(ideal),
        Err(_) => Err(Fail::from("memory was refused")),
    }
}

/// Executes the line of a place, and answers the next one. `turns` are those that a `repeat` has left.
fn step(ideal: &mut Ideal, line: &Line, at: usize, turns: &mut u32) -> usize
    requires { at < usize.MAX }
{
    match line.what {
        What::Run(command) => {
            // A fault leaves the graph as it was.
            let _said = ideal.step(&command);
        }
        What::Repeat { times, .. } => *turns = times,
        What::End { repeat_at } => {
            if *turns > 1 {
                *turns -= 1;
                return repeat_at as usize + 1;
            }
        }
    }
    at + 1
}
