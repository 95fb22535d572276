//! The runs of one page.
ghost use Rattle.std.specs.Prelude.{◌≡◌, ◌+◌, ◌<◌, ◌≤◌, ◌^◌, [], ◌∷◌, ◌++◌, length, All, IfOk, MatchOption};
ghost use Rattle.page_space.specs.Sizes.{pages_most};
ghost use Rattle.free_runs.specs.FreeRuns.{longest_in, runs_most, whole_row, AreShort, TakesFrom};
ghost use Rattle.free_runs.specs.Standing.{StandsAt};

use page_space::{PAGE_WORDS, Run};
use std::alloc::Global;
use std::marker::Model;
use tagged_word::NoMemory;

/// The most runs of a page.
const RUNS_MOST: usize = 1_024;

/// The runs of a page. There is room for as many as there may be, so that later calls take no
/// memory.
#[derive(Drop)]
pub(crate) struct Row {
    runs: Vec<Run>,
    // The words of the longest run, since each page is asked for them until one has enough.
    longest: u32,
}

impl Model for Row {
    ghost use Rattle.std.specs.Prelude.{List};
    ghost use Rattle.page_space.specs.declared.run.Run.{Run};

    ghost Value = { List Run };

    ghost use Rattle.free_runs.specs.Model.{runs_in, IsRoomy};

    ghost view = { runs_in };

    ghost invariant = { IsRoomy };
}

/// The words of the longest of the runs.
fn longest(runs: &[Run]) -> u32
    ensures { result ≡ longest_in runs.now }
{
    let mut longest = 0;
    for run in runs {
        if longest < run.words {
            longest = run.words;
        }
    }
    longest
}

/// The place of the first run of at least so many words.
fn place_for(runs: &[Run], n: u32) -> Option<usize>
    ensures { MatchOption result (AreShort runs.now n) (λ place. StandsAt runs.now n place) }
{
    for place in 0..runs.len() {
        if n <= runs[place].words {
            return Some(place);
        }
    }
    None
}

impl Row {
    /// The page as one run.
    pub(crate) fn whole(alloc: Global, page: u32) -> Result<Row, NoMemory>
        requires { page < pages_most }
        ensures { IfOk result (λ row. row ≡ whole_row page) }
    {
        let mut runs = Vec::with_capacity(alloc, RUNS_MOST)?;
        runs.push(Run {
            at: PAGE_WORDS * page,
            words: PAGE_WORDS,
        })?;
        Ok(Row {
            runs,
            longest: PAGE_WORDS,
        })
    }

    /// The words of the longest run.
    pub(crate) fn longest(&self) -> u32
        ensures { result ≡ longest_in self.now }
    {
        self.longest
    }

    /// The runs.
    pub(crate) fn runs(&self) -> &[Run]
        ensures { result.now ≡ self.now }
    {
        &self.runs
    }

    /// These runs in place of the ones that were here.
    pub(crate) fn put(&mut self, runs: &[Run])
        requires { length runs.now ≤ runs_most }
        ensures { self.new ≡ runs.now }
    {
        self.runs.clear();
        if self.runs.extend_from_slice(runs).is_err() {
            unreachable!();
        }
        self.longest = longest(runs);
    }

    /// No run stays.
    pub(crate) fn clear(&mut self)
        ensures { self.new ≡ [] }
    {
        self.runs.clear();
        self.longest = 0;
    }

    /// One run more, behind the others.
    pub(crate) fn add(&mut self, run: Run)
        requires { length self.old < runs_most }
        ensures { self.new ≡ self.old ++ run ∷ [] }
    {
        self.runs.push_reserved(run);
        self.longest = self.longest.max(run.words);
    }

    /// The first words of the first run that has so many.
    pub(crate) fn take(&mut self, n: u32) -> Run
        requires some { 1 ≤ n }
        requires fits { n ≤ longest_in self.old }
        requires ends { All (λ run. run.at + run.words < 2 ^ 32) self.old }
        ensures { TakesFrom self.old self.new n result }
    {
        let Some(place) = place_for(&self.runs, n) else {
            unreachable!();
        };
        let run = self.runs[place];
        let is_longest = run.words == self.longest;
        if run.words == n {
            self.runs.remove(place);
        } else {
            self.runs[place] = Run {
                at: run.at + n,
                words: run.words - n,
            };
        }
        // A shorter run and what is left of it are none that the longest goes by.
        self.longest = if is_longest {
            longest(&self.runs)
        } else {
            self.longest
        };
        Run {
            at: run.at,
            words: n,
        }
    }
}
