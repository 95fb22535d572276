//! The last line of a run and its status. It is written without taking memory.
ghost use Rattle.std.specs.Prelude.{◌≡◌, ◌≢◌, ◌+◌, ◌++◌, ◌≤◌, List, Some, length, ℕ};
ghost use Rattle.byte_ends.specs.Faults.{Rose};
ghost use Rattle.byte_ends.specs.Sink.{Appends, AppendsSome};
ghost use Rattle.object_graph.specs.Texts.{line};
ghost use Rattle.heap_run.specs.Texts.{reason_line, numbered};
ghost use Rattle.heap_run.specs.Texts.{last_bytes, status_of, sink_fault_status};
ghost use Rattle.heap_run.specs.Answers.{refusal_of, last_line_of, soak_line_of};
ghost use Rattle.byte_ends.specs.Sure.{HasSums};

use arrayvec::ArrayString;
use byte_ends::{Failed, Sink, Tally, write_all};
use heap_check::{Counts, Flaw};
use heap_command::FaultWord;
use heap_script::{Finished, How};
use itoa::Buffer;
use script_text::{BadScript, Why};

/// The most bytes of a last line: that of a soak has five numbers, of up to 20 digits each, and 37 bytes besides.
const LAST_LINE_BYTES: usize = 137;

/// The most digits of a number.
const DIGITS: usize = 20;

/// The status of a run whose sink failed.
pub(crate) const SINK_FAULT: u8 = 5;

/// The sums of a soak whose script came to its end.
#[derive(Clone, Copy)]
pub struct Soaked {
    /// How many lines were executed.
    pub lines: u64,
    /// How many bytes they told, modulo 2^64.
    pub bytes: u64,
    /// The sum of the values of these bytes, modulo 2^64.
    pub sum: u64,
    /// What was counted of the heap that is left.
    pub counts: Counts,
}

/// What a run writes behind what its script tells.
#[derive(Clone, Copy)]
pub enum LastLine {
    /// The script came to its end.
    Nothing,
    /// The script came to its end, and so much the checker counted of the heap that is left.
    Checked(Counts),
    /// The script of a soak came to its end, with these sums.
    Soaked(Soaked),
    /// The command of the line is a fault.
    Fault { line: u32, word: FaultWord },
    /// The line of the source is refused.
    BadScript { line: u32, why: Why },
    /// The source has too many names, from this line on.
    TooManyNames { line: u32 },
    /// The heap has no room for the words that the command of the line needs.
    HeapFull { line: u32 },
    /// A read failed.
    ReadFault,
    /// The source has more bytes than it may have.
    SourceTooLong,
    /// Memory was refused before the first command.
    NoMemory,
    /// As many lines were executed as may be before this one.
    LineLimit { line: u32 },
    /// The words of the command line are refused.
    BadWords,
    /// The checker found a word that breaks the heap.
    Flawed(Flaw),
}

impl LastLine {
    /// The last line of a script that came to this end. A sink that failed is no end, and is not asked.
    pub(crate) fn of(finished: &Finished) -> LastLine
        ensures { result ≡ last_line_of finished.now.how finished.now.line }
    {
        let line = finished.line;
        match finished.how {
            How::End | How::SinkFault { .. } => LastLine::Nothing,
            How::Counted(counts) => LastLine::Checked(counts),
            How::Fault(word) => LastLine::Fault { line, word },
            How::HeapFull { .. } => LastLine::HeapFull { line },
            How::LineLimit => LastLine::LineLimit { line },
            How::Flawed(flaw) => LastLine::Flawed(flaw),
        }
    }

    /// The last line of a source whose reading as a script stopped so.
    pub(crate) fn of_source(stop: BadScript) -> LastLine
        ensures refused { stop ≢ BadScript.NoMemory → refusal_of stop ≡ Some result }
        ensures no_memory { stop ≡ BadScript.NoMemory → result ≡ LastLine.NoMemory }
    {
        match stop {
            BadScript::BadLine { line, why } => LastLine::BadScript { line, why },
            BadScript::TooManyNames { line } => LastLine::TooManyNames { line },
            BadScript::NoMemory => LastLine::NoMemory,
        }
    }

    /// The last line of a soak whose script came to this end, and told bytes of these sums.
    pub(crate) fn of_soak(finished: &Finished, tally: &Tally) -> LastLine
        ensures { (bytes : List ℕ) → HasSums tally.now bytes →
            result ≡ soak_line_of finished.now.how finished.now.line finished.now.executed bytes }
    {
        match finished.how {
            How::Counted(counts) => LastLine::Soaked(Soaked {
                lines: finished.executed,
                bytes: tally.bytes(),
                sum: tally.sum(),
                counts,
            }),
            _ => LastLine::of(finished),
        }
    }

    /// The status that the process is to end with.
    pub(crate) fn status(self) -> u8
        ensures { result ≡ status_of self }
    {
        match self {
            LastLine::Nothing | LastLine::Checked(_) | LastLine::Soaked(_) => 0,
            LastLine::Fault { .. } => 1,
            LastLine::BadScript { .. } | LastLine::TooManyNames { .. } => 2,
            LastLine::HeapFull { .. } => 3,
            LastLine::ReadFault => 4,
            LastLine::SourceTooLong => 6,
            LastLine::NoMemory => 7,
            LastLine::LineLimit { .. } => 8,
            LastLine::BadWords => 64,
            // An internal error of the software, as sysexits.h has it.
            LastLine::Flawed(_) => 70,
        }
    }

    /// Writes the line, and answers the status: its own, or that of a sink that failed.
    pub(crate) fn conclude<K: Sink>(self, sink: &mut K) -> u8
        ensures written { result ≢ sink_fault_status → (result ≡ status_of self)
            × Appends (K.HasTaken sink.old) (K.HasTaken sink.new) (last_bytes self)
            × (K.faults sink.new ≡ K.faults sink.old) }
        ensures failed { result ≡ sink_fault_status →
            AppendsSome (K.HasTaken sink.old) (K.HasTaken sink.new) (last_bytes self)
            × Rose (K.faults sink.old) (K.faults sink.new) }
    {
        // In one piece: a reader of the other end never has a part of the line where the system takes it whole.
        let text = self.text();
        match write_all(sink, text.as_str().as_bytes()) {
            Ok(()) => self.status(),
            Err(Failed) => SINK_FAULT,
        }
    }

    /// The line as it is written. It takes no memory, so that a run that was refused memory has a last line too.
    fn text(self) -> ArrayString<LAST_LINE_BYTES>
        ensures { result.bytes ≡ last_bytes self }
    {
        match self {
            LastLine::Nothing => ArrayString::new(),
            LastLine::Checked(counts) => checked_text(counts),
            LastLine::Soaked(soaked) => soaked_text(soaked),
            LastLine::Fault { line, word } => reason_text("fault ", line, word.text()),
            LastLine::BadScript { line, why } => reason_text("bad script ", line, why.text()),
            LastLine::TooManyNames { line } => reason_text("bad script ", line, "names"),
            LastLine::HeapFull { line } => numbered_text("heap full ", line),
            LastLine::ReadFault => plain_text("read fault\n"),
            LastLine::SourceTooLong => plain_text("source too long\n"),
            LastLine::NoMemory => plain_text("no memory\n"),
            LastLine::LineLimit { line } => numbered_text("line limit ", line),
            LastLine::BadWords => plain_text("bad words\n"),
            LastLine::Flawed(flaw) => flaw_text(flaw),
        }
    }
}

/// A line without a number.
fn plain_text(line: &str) -> ArrayString<LAST_LINE_BYTES>
    requires { length line.now ≤ LAST_LINE_BYTES }
    ensures { result.bytes ≡ line.now }
{
    let mut text = ArrayString::new();
    text.push_str(line);
    text
}

/// A line of a head, the number of a line, a space and a reason.
fn reason_text(head: &str, line: u32, reason: &str) -> ArrayString<LAST_LINE_BYTES>
    requires short_head { length head.now ≤ DIGITS }
    requires short_reason { length reason.now ≤ DIGITS }
    ensures { result.bytes ≡ reason_line head.now line reason.now }
{
    let mut text = ArrayString::new();
    push_number(&mut text, head, line as u64);
    text.push_str(" ");
    text.push_str(reason);
    text.push_str("\n");
    text
}

/// A line of a head and a number.
fn numbered_text(head: &str, number: u32) -> ArrayString<LAST_LINE_BYTES>
    requires { length head.now ≤ DIGITS }
    ensures { result.bytes ≡ line (numbered head.now number) }
{
    let mut text = ArrayString::new();
    push_number(&mut text, head, number as u64);
    text.push_str("\n");
    text
}

/// What a check counted of a heap.
fn checked_text(counts: Counts) -> ArrayString<LAST_LINE_BYTES>
    ensures { result.bytes ≡ last_bytes (LastLine.Checked counts) }
{
    let mut text = ArrayString::new();
    push_number(&mut text, "checked objects ", counts.objects);
    push_number(&mut text, " entries ", counts.entries);
    text.push_str("\n");
    text
}

/// The sums of a soak.
fn soaked_text(soaked: Soaked) -> ArrayString<LAST_LINE_BYTES>
    ensures { result.bytes ≡ last_bytes (LastLine.Soaked soaked) }
{
    let mut text = ArrayString::new();
    push_number(&mut text, "lines ", soaked.lines);
    push_number(&mut text, " bytes ", soaked.bytes);
    push_number(&mut text, " sum ", soaked.sum);
    push_number(&mut text, " objects ", soaked.counts.objects);
    push_number(&mut text, " entries ", soaked.counts.entries);
    text.push_str("\n");
    text
}

/// The address of a word that breaks the heap, what stands there, and what is asked for.
fn flaw_text(flaw: Flaw) -> ArrayString<LAST_LINE_BYTES>
    ensures { result.bytes ≡ last_bytes (LastLine.Flawed flaw) }
{
    let mut text = ArrayString::new();
    push_number(&mut text, "flaw ", flaw.at as u64);
    push_number(&mut text, " ", flaw.found);
    push_number(&mut text, " ", flaw.wanted);
    text.push_str("\n");
    text
}

/// Puts a head and a number after the text.
fn push_number(text: &mut ArrayString<LAST_LINE_BYTES>, head: &str, number: u64)
    requires { length text.old.bytes + (length head.now + DIGITS) ≤ LAST_LINE_BYTES }
    ensures pushed { text.new.bytes ≡ text.old.bytes ++ numbered head.now number }
    ensures few { length text.new.bytes ≤ length text.old.bytes + (length head.now + DIGITS) }
{
    text.push_str(head);
    text.push_str(Buffer::new().format(number));
}
