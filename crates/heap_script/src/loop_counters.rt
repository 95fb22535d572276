//! The turns left of open blocks. Where a run goes on is `standing_after` of `specs/LoopCounters.antt`; that this
//! is the order of execution is kept in `interpreter`.
ghost use Rattle.std.specs.Prelude.{◌≡◌, ◌<◌, ◌≤◌, ◌^◌, suc, [], ◌∷◌, length, drop, None};
ghost use Rattle.script_text.specs.Limits.{open_most};
ghost use Rattle.heap_script.specs.LoopCounters.{standing_after, closed, IsInside};
ghost use Rattle.heap_script.specs.Progress.{command_in};

use script_text::What;
use std::marker::Model;

/// How many blocks may be open at once.
pub(crate) const DEEPEST: usize = 4;

/// For each open block, the innermost first, how many turns are left after the present one.
#[derive(Drop)]
pub(crate) struct LoopCounters {
    left: [u32; DEEPEST],
    open: usize,
}

impl Model for LoopCounters {
    ghost use Rattle.std.specs.Prelude.{ℕ, List, take, ◌≤◌};

    ghost Value = { List ℕ };

    ghost view = { λ turns. take turns.open turns.left };

    ghost invariant = { λ turns. turns.open ≤ 4 };
}

impl LoopCounters {
    /// No block is open.
    pub(crate) fn new() -> LoopCounters
        ensures { result ≡ [] }
    {
        LoopCounters {
            left: [0; DEEPEST],
            open: 0,
        }
    }

    /// Carries out the `repeat` or the `end` at this place. The run goes on after the line whose place it returns: this
    /// one, or the other end of the block.
    #[inline(always)]
    pub(crate) fn jump(&mut self, at: usize, what: &What) -> usize
        requires small { at < 2 ^ 63 }
        requires jumps { command_in what.now ≡ None }
        requires inside { IsInside self.old what.now }
        requires deep { length (standing_after at self.old what.now).turns ≤ open_most }
        ensures place { suc result ≡ (standing_after at self.old what.now).at }
        ensures turns { self.new ≡ (standing_after at self.old what.now).turns }
        ensures few { result < 2 ^ 63 }
    {
        match *what {
            What::Run(_) => unreachable!(),
            What::Repeat { times: 0, end_at } => end_at as usize,
            What::Repeat { times, .. } => {
                self.enter(times - 1);
                at
            }
            What::End { repeat_at } => self.end(at, repeat_at),
        }
    }

    /// One block more is open, with so many turns left.
    #[inline(never)]
    fn enter(&mut self, turns: u32)
        requires { length self.old < 4 }
        ensures { self.new ≡ turns ∷ self.old }
    {
        let [first, second, third, _] = self.left;
        self.left = [turns, first, second, third];
        self.open += 1;
    }

    /// The same of an `end`, of the `repeat` at the other place.
    #[inline(always)]
    fn end(&mut self, at: usize, repeat_at: u32) -> usize
        requires small { at < 2 ^ 63 }
        requires some { 1 ≤ length self.old }
        ensures place { suc result ≡ (closed at self.old repeat_at).at }
        ensures turns { self.new ≡ (closed at self.old repeat_at).turns }
        ensures few { result < 2 ^ 63 }
    {
        if self.left[0] > 0 {
            self.left[0] -= 1;
            return repeat_at as usize;
        }
        self.leave();
        at
    }

    /// The innermost block is open no more.
    #[inline(never)]
    fn leave(&mut self)
        requires { 1 ≤ length self.old }
        ensures { self.new ≡ drop 1 self.old }
    {
        let [_, second, third, fourth] = self.left;
        self.left = [second, third, fourth, 0];
        self.open -= 1;
    }
}
