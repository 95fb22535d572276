//! What is known of the cells of pages: which slots refer to young cells, and which runs are free.
use crate::images::Change::{self, Used, Word};
use crate::images::image_of;
use crate::worked::OLD;
use heap_check::check;
use heap_model::HeapImage;
use page_space::Run;
use slow_check::{are_free_runs, are_remembered};
use std::alloc::Global;
use std::test::Fail;

/// Changes of the worked heap, addresses, what they are there, and whether they are those of the
/// slots of pages that refer to young cells.
type Slots = (&'static [Change], &'static [u32], &'static str, bool);

/// The words of the gap at 12 as a box, whose integer reads as a reference to 2,048, and a gap.
const BOX: [Change; 4] = [Word(12, 22), Word(13, 8_193), Word(14, 30), Word(15, 2)];

const SLOTS: [Slots; 16] = [
    (&[], &[5, 17], "an element and the store of a list", true),
    (&[], &[17, 5], "in another order", true),
    (&[], &[5, 17, 5], "one of them twice", true),
    (&[], &[5], "without the store of a list", false),
    (&[], &[17], "without the element", false),
    (&[], &[], "none", false),
    (&[], &[5, 6, 17], "an element that is an integer", false),
    (&[], &[1, 5, 17], "a reference to an old cell", false),
    (&[], &[4, 5, 17], "the capacity of a store", false),
    (&[], &[5, 8, 17], "a free word", false),
    (&[], &[5, 17, 2_053], "a slot of a young cell", false),
    (
        &[],
        &[5, 17, 4_000_000_000],
        "no address of the heap",
        false,
    ),
    (&[Word(6, 8_193)], &[5, 17], "an element too few", false),
    (&[Word(6, 8_193)], &[5, 6, 17], "two elements", true),
    (&BOX, &[5, 17], "a box that reads as a reference", true),
    (&BOX, &[5, 13, 17], "the word of the box", false),
];

/// Changes of the worked heap, rows of addresses and numbers of words, what they are there, and
/// whether they are free runs of pages.
type Rows = (
    &'static [Change],
    &'static [&'static [(u32, u32)]],
    &'static str,
    bool,
);

/// A free word in eden, at 2,054.
const YOUNG: [Change; 2] = [Used(7), Word(2_054, 26)];

const ROWS: [Rows; 15] = [
    (
        &[],
        &[&[(8, 1), (12, 4), (19, 2_029)]],
        "each of them",
        true,
    ),
    (&[], &[&[(12, 4)]], "one of them", true),
    (&[], &[], "no row", true),
    (&[], &[&[], &[(8, 1)]], "an empty row, and another", true),
    (&[], &[&[(12, 3)]], "shorter than its gap", false),
    (&[], &[&[(12, 5)]], "longer, with a word of a list", false),
    (
        &[],
        &[&[(8, 2)]],
        "a word of a list behind a free one",
        false,
    ),
    (&[], &[&[(11, 5)]], "a word of a list before the gap", false),
    (&[], &[&[(13, 3)]], "the end of a gap", false),
    (&[], &[&[(9, 3)]], "a list", false),
    (&[], &[&[(19, 2_030)]], "longer than the page", false),
    (
        &[],
        &[&[(8, 1)], &[(12, 3)]],
        "a wrong one in a second row",
        false,
    ),
    (
        &[],
        &[&[(8, 1), (9, 3)]],
        "a wrong one behind a right one",
        false,
    ),
    (&YOUNG, &[&[(2_054, 1)]], "a free word that is young", false),
    (&BOX, &[&[(12, 4)]], "a gap that a box was put in", false),
];

/// Whether the image is whole, and these are the slots of its pages that refer to young cells.
fn remembers(alloc: Global, image: &HeapImage, slots: &[u32]) -> (bool, bool) {
    match check(alloc, image) {
        Ok(_) => (true, are_remembered(image, slots)),
        Err(_) => (false, false),
    }
}

/// Whether the image is whole, and these are free runs of its pages.
fn has_free(alloc: Global, image: &HeapImage, rows: &[Vec<Run>]) -> (bool, bool) {
    match check(alloc, image) {
        Ok(_) => (true, are_free_runs(image, rows)),
        Err(_) => (false, false),
    }
}

/// A row of runs.
fn row_of(alloc: Global, runs: &[(u32, u32)]) -> Result<Vec<Run>, Fail> {
    let mut row = Vec::new(alloc);
    for (at, words) in runs {
        row.push(Run {
            at: *at,
            words: *words,
        })?;
    }
    Ok(row)
}

/// Rows of runs.
fn rows_of(alloc: Global, rows: &[&[(u32, u32)]]) -> Result<Vec<Vec<Run>>, Fail> {
    let mut made = Vec::new(alloc);
    for runs in rows {
        made.push(row_of(alloc, runs)?)?;
    }
    Ok(made)
}

#[test]
fn slots_of_pages_are_remembered_where_they_refer_to_young_cells(
    rt: HostRuntime,
) -> Result<(), Fail> {
    for (changes, slots, what, expected) in &SLOTS {
        let image = image_of(&rt, rt.alloc(), &OLD, changes)?;
        assert_eq!(rt;
            remembers(rt.alloc(), &image, slots),
            (true, *expected),
            "{what}"
        );
    }
    Ok(())
}

#[test]
fn runs_are_free_where_each_is_one_free_cell_of_a_page(rt: HostRuntime) -> Result<(), Fail> {
    for (changes, rows, what, expected) in &ROWS {
        let image = image_of(&rt, rt.alloc(), &OLD, changes)?;
        let rows = rows_of(rt.alloc(), rows)?;
        assert_eq!(rt;
            has_free(rt.alloc(), &image, &rows),
            (true, *expected),
            "{what}"
        );
    }
    Ok(())
}
