//! Laws of heap scripts: how their text is read, and in which order their lines are executed.
//!
//! Model: none. Each function does nothing; its clauses are laws, for all sources and all lists of
//! lines. A reader sees from them that the definitions say what they should.
//! Invariant: none.
#![tactic(auto)]

ghost use Rattle.script_laws.specs.Naming.{FirstUsesName, NumbersNameBack};
ghost use Rattle.script_laws.specs.Words.{IntegersAreRead, IntegersAreWritten, KeywordsAreFound, KeywordsAreKnown};
ghost use Rattle.script_laws.specs.Openings.{VersionsStandFirst};
ghost use Rattle.script_laws.specs.Refusals.{RefusesFirst, RefusesOpen, CountsNamesLast};
ghost use Rattle.script_laws.specs.Execution.{ScriptsAreWhole, UnrollsRuns, UnrollsBlocks, AllIsLeft, NothingIsLeft};
ghost use Rattle.script_laws.specs.Execution.{GoesPastCommands, GoesIntoBlocks, GoesPastBlocks, GoesBack, GoesOut};
ghost use Rattle.script_laws.specs.Execution.{EndsStandInBlocks, CountsOpenBlocks, FewBlocksAreOpen};
ghost use Rattle.script_laws.specs.Canonical.{StatementsAreReadAgain, PrintedIsReadAgain};
ghost use Rattle.script_laws.specs.Generated.{GeneratedAreScripts, GeneratedLinesAreShort, GeneratedAreShort};

/// The names that get numbers are those that are used, each once, and the number of a name names it
/// back.
pub fn names_are_numbered()
    ensures each_once { FirstUsesName }
    ensures named_back { NumbersNameBack }
{}

/// What `print` writes of an integer of 64 bits is read as it, and nothing else is; the word of a
/// command is found as this command by each version that has it, and by no other.
pub fn words_are_read()
    ensures integers_read { IntegersAreRead }
    ensures integers_written { IntegersAreWritten }
    ensures keywords_found { KeywordsAreFound }
    ensures keywords_known { KeywordsAreKnown }
{}

/// Lines without tokens stand first in a source. The next line says the version of the others, or
/// else the version is the first, and the commands begin with this line.
pub fn versions_stand_first()
    ensures { VersionsStandFirst }
{}

/// The line of a refusal is the first that is refused. Where no line is, it is the innermost
/// `repeat` that is left open; and where there is none either, a line with too many names.
pub fn refusals_come_in_order()
    ensures first { RefusesFirst }
    ensures open { RefusesOpen }
    ensures names_last { CountsNamesLast }
{}

/// In a script that was read each `repeat` has its `end`. A command is executed once. A block is
/// executed as its `repeat`, and then in each turn as its lines and its `end`. What follows comes
/// after that.
pub fn blocks_are_executed_in_turns()
    ensures whole { ScriptsAreWhole }
    ensures commands { UnrollsRuns }
    ensures blocks { UnrollsBlocks }
{}

/// What is left to execute begins with the line at its place. It goes on at the next place, with the
/// turns that are then left of the open blocks.
pub fn execution_goes_on()
    ensures begins { AllIsLeft }
    ensures at_end { NothingIsLeft }
    ensures past_command { GoesPastCommands }
    ensures into_block { GoesIntoBlocks }
    ensures past_block { GoesPastBlocks }
    ensures back { GoesBack }
    ensures out { GoesOut }
    ensures inside_block { EndsStandInBlocks }
    ensures depth { CountsOpenBlocks }
    ensures at_most_four { FewBlocksAreOpen }
{}

/// A command that is read from a line is read from its canonical form too. So is a script: the same
/// commands, repeats and ends in the same order, with the same names, by the same version.
pub fn printed_is_read_again()
    ensures statements { StatementsAreReadAgain }
    ensures scripts { PrintedIsReadAgain }
{}

/// A script that is generated is a script of the first version, within the limits, for every seed and every number of
/// forms: no line of it is refused, and it has few names and short lines. With up to 30,000 forms it
/// is no longer than a source may be.
pub fn generated_scripts_are_read()
    ensures scripts { GeneratedAreScripts }
    ensures short_lines { GeneratedLinesAreShort }
    ensures short { GeneratedAreShort }
{}
