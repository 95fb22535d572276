//! How the run of a script ended.
ghost use Rattle.std.specs.Prelude.{◌≡◌};
ghost use Rattle.heap_script.specs.Runs.{need_at};

use heap_check::{Counts, Flaw};
use heap_command::FaultWord;

/// Why a run went no further.
#[derive(Clone, Copy)]
pub enum How {
    /// Every line was executed.
    End,
    /// Every line was executed, and then the heap was fully collected and counted, as the run was asked to: the objects
    /// that can be reached, and the entries of weak maps whose map and key can.
    Counted(Counts),
    /// The command of the next line is this fault.
    Fault(FaultWord),
    /// The heap has no room for the words that the command of the next line needs, so many, though it
    /// keeps exactly what can be reached: it was fully collected since the last line.
    HeapFull { need: u32 },
    /// The sink failed. Where it did so after the run had come to a full heap, this is the need
    /// there, and else 0.
    SinkFault { need: u32 },
    /// As many lines were executed as may be, and there is another one.
    LineLimit,
    /// The checker found a word that breaks the heap. That is proved not to come: the build or the machine is wrong.
    Flawed(Flaw),
}

impl How {
    /// The words that were wanted where the run came to this, or 0.
    pub fn need(self) -> u32
        ensures { result ≡ need_at self }
    {
        match self {
            How::HeapFull { need } | How::SinkFault { need } => need,
            How::End | How::Counted(_) | How::Fault(_) | How::LineLimit | How::Flawed(_) => 0,
        }
    }
}

/// How a run ended, and how far it came.
#[derive(Clone, Copy)]
pub struct Finished {
    pub how: How,
    /// The number of the line that stopped the script, or 0 where none did.
    pub line: u32,
    /// How many lines were executed.
    pub executed: u64,
}

impl Finished {
    /// A run that came to this at a line, or at none, after so many lines.
    pub(crate) fn after(how: How, line: u32, executed: u64) -> Finished
        ensures { result ≡ record { how = how; line = line; executed = executed } }
    {
        Finished {
            how,
            line,
            executed,
        }
    }
}
