//! Free runs: the words of the old generation's pages that a promotion or a grant may take.
//!
//! Model: for each page a list of runs, of `specs/FreeRuns.antt`. A promotion or a grant takes words
//! from them, and a sweep puts a page's runs anew. The crate reads and writes no word of the heap.
//! Invariant: the runs of a page lie in it, have at least one word each, ascend, and neither
//! overlap nor touch. So a page has at most 1,024 of them, and room for these is there from the
//! start: no call takes memory later.
#![tactic(auto)]

ghost use Rattle.std.specs.Prelude.{◌≡◌, ◌+◌, ◌*◌, ◌<◌, ◌≤◌, ◌↔◌, [], ◌∷◌, ◌++◌, length, set};
ghost use Rattle.std.specs.Prelude.{IfOk, IfSome, IfNone, IsNone};
ghost use Rattle.std.specs.Prelude.{MatchOption};
ghost use Rattle.page_space.specs.Sizes.{page_words, pages_most};
ghost use Rattle.free_runs.specs.FreeRuns.{AreFree, IsRowOf, LiesIn, IsBehind, FitsNowhere, TakesFront};
ghost use Rattle.free_runs.specs.FreeRuns.{longest_of, row_of, whole_rows};
ghost use Rattle.free_runs.specs.Standing.{FitsIn, FitsInNone};

mod laws;
mod row;

use crate::row::Row;
pub use laws::laws_of_runs;
use page_space::Run;
use std::alloc::Global;
use std::marker::Model;
use tagged_word::NoMemory;

/// The runs of words that no live cell has, page by page.
#[derive(Drop)]
pub struct FreeRuns {
    rows: Vec<Row>,
    // The page of the last take, where the next one looks first.
    cursor: usize,
}

impl Model for FreeRuns {
    ghost use Rattle.std.specs.Prelude.{List};
    ghost use Rattle.page_space.specs.declared.run.Run.{Run};

    ghost Value = { List (List Run) };

    ghost use Rattle.free_runs.specs.Model.{rows_in, IsValid};

    ghost view = { rows_in };

    ghost invariant = { IsValid };
}

/// The first page from one on, and before another, that has a run of so many words.
fn page_among(rows: &[Row], n: u32, from: usize, to: usize) -> Option<usize>
    requires { to ≤ length rows.now }
    ensures { MatchOption result (FitsInNone rows.now n from to) (λ page. FitsIn rows.now n page) }
{
    for page in from..to {
        if n <= rows[page].longest() {
            return Some(page);
        }
    }
    None
}

/// The words of the longest run of all rows.
fn longest(rows: &[Row]) -> u32
    ensures { result ≡ longest_of rows.now }
{
    let mut longest = 0;
    for row in rows {
        if longest < row.longest() {
            longest = row.longest();
        }
    }
    longest
}

/// A row for each page, which is one run.
fn rows_of(alloc: Global, pages: u32) -> Result<Vec<Row>, NoMemory>
    requires { pages ≤ pages_most }
    ensures { IfOk result (λ rows. rows.items ≡ whole_rows pages) }
{
    let mut rows = Vec::with_capacity(alloc, pages as usize)?;
    for page in 0..pages {
        rows.push(Row::whole(alloc, page)?)?;
    }
    Ok(rows)
}

impl FreeRuns {
    /// Each page is one run. It takes all the memory that it needs: later calls take none.
    pub fn new(alloc: Global, pages: u32) -> Result<FreeRuns, NoMemory>
        requires { pages ≤ pages_most }
        ensures { IfOk result (λ free. free ≡ whole_rows pages) }
    {
        let rows = rows_of(alloc, pages)?;
        Ok(FreeRuns { rows, cursor: 0 })
    }

    /// A page that has a run of so many words: the first from the cursor on, and else the first of
    /// those before it.
    fn page_for(&self, n: u32) -> Option<usize>
        ensures { MatchOption result (FitsNowhere self.now n) (λ page. FitsIn self.now n page) }
    {
        if let Some(page) = page_among(&self.rows, n, self.cursor, self.rows.len()) {
            return Some(page);
        }
        page_among(&self.rows, n, 0, self.cursor)
    }

    /// The first words of a run that has so many. They are taken from it, and what is left of it
    /// stays. None where each run is too short.
    pub fn take(&mut self, n: u32) -> Option<Run>
        requires some { 1 ≤ n }
        requires few { n ≤ page_words }
        ensures taken { IfSome result (λ run. TakesFront self.old self.new n run) }
        ensures none { IsNone result ↔ FitsNowhere self.old n }
        ensures unchanged { IfNone result (self.new ≡ self.old) }
    {
        let Some(page) = self.page_for(n) else {
            return None;
        };
        self.cursor = page;
        Some(self.rows[page].take(n))
    }

    /// The runs of a page, in place of those that it had.
    pub fn put_page(&mut self, page: u32, runs: &[Run])
        requires there { page < length self.old }
        requires row { IsRowOf page runs.now }
        ensures { self.new ≡ set self.old page runs.now }
    {
        self.rows[page as usize].put(runs);
    }

    /// The page has no run any more.
    pub fn clear_page(&mut self, page: u32)
        requires { page < length self.old }
        ensures { self.new ≡ set self.old page [] }
    {
        self.rows[page as usize].clear();
    }

    /// The page has one run more, which begins behind the last of those that it has, and does not
    /// touch it.
    pub fn add(&mut self, page: u32, run: Run)
        requires there { page < length self.old }
        requires lies { LiesIn (page_words * page) (page_words * (page + 1)) run }
        requires behind { IsBehind (row_of self.old page) run }
        ensures { self.new ≡ set self.old page (row_of self.old page ++ run ∷ []) }
    {
        self.rows[page as usize].add(run);
    }

    /// The words of the longest run, 0 where there is none.
    pub fn longest(&self) -> u32
        ensures longest { result ≡ longest_of self.now }
        ensures own { AreFree self.now }
    {
        longest(&self.rows)
    }

    /// The runs of a page.
    pub fn runs(&self, page: u32) -> &[Run]
        requires { page < length self.now }
        ensures runs { result.now ≡ row_of self.now page }
        ensures own { IsRowOf page result.now }
    {
        self.rows[page as usize].runs()
    }
}
