//! What a run does between the commands that it executes one after another, and how many lines it executes so at most.
ghost use Rattle.std.specs.Prelude.{◌≡◌, ◌^◌, ◌-◌};

/// The pace of a run: how many lines it executes before it returns, and what is done after each of their commands. It
/// is handed neither the heap nor the output, so it changes nothing of them.
pub(crate) trait Pace {
    ghost use Rattle.std.specs.Prelude.{ℕ};

    // how many lines are executed at most
    ghost most: { Self → ℕ };

    /// How many lines are executed at most.
    fn lines_most(&self) -> u64
        ensures { result ≡ most self.now };

    /// Is called after each command that was carried out.
    fn command_done(&self);
}

/// No bound on lines, and nothing between commands.
#[derive(Clone, Copy)]
pub(crate) struct Unpaced;

impl Pace for Unpaced {
    ghost most = { λ _. 2 ^ 64 - 1 };

    #[inline(always)]
    fn lines_most(&self) -> u64 {
        u64::MAX
    }

    #[inline(always)]
    fn command_done(&self) {}
}
