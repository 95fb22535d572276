//! Values that variables hold, each with the two root words that it makes (`handle_roots`).

ghost use Rattle.std.specs.Prelude.{◌≡◌, ℕ, ◌+◌, ◌<◌, ◌≤◌, length, slice_set};
ghost use Rattle.page_space.specs.Extents.{layouts_start};
ghost use Rattle.handle_roots.specs.declared.held.Held.{Held as What};
ghost use Rattle.handle_roots.specs.Roots.{root_at, Holds, IsRoot, with_root};

use crate::places::loaded;
use handle_roots::{Held, RootPair, held_by, is_bound, root_words, words_of};
use page_space::{Regions, Sizes};
use std::test::Fail;
use word_store::{Reads, VecWords, Words};

/// Row, a value, its first word and its second, and whether a variable that holds it is bound.
const VALUES: [(u32, Held, u64, u64, bool); 11] = [
    (1, Held::Undefined, 0x3, 0, true),
    (2, Held::Unbound, 0xb, 0, false),
    (3, Held::Int(1), 2, 0, true),
    (4, Held::Int(-1), 0xffff_ffff_ffff_fffe, 0, true),
    (5, Held::Int(1_073_741_823), 0x7fff_fffe, 0, true),
    (6, Held::Int(-1_073_741_824), 0xffff_ffff_8000_0000, 0, true),
    (7, Held::Int(1_073_741_824), 0xf, 0x4000_0000, true),
    (
        8,
        Held::Int(-1_073_741_825),
        0xf,
        0xffff_ffff_bfff_ffff,
        true,
    ),
    (9, Held::Int(i64::MIN), 0xf, 0x8000_0000_0000_0000, true),
    (10, Held::Int(i64::MAX), 0xf, 0x7fff_ffff_ffff_ffff, true),
    (11, Held::Ref(131_072), 524_289, 0, true),
];

/// The words of all three variables, which begin at 2,240.
fn all_root_words(words: &mut VecWords) -> [Option<u64>; 6] {
    [
        loaded(words, 2_240),
        loaded(words, 2_241),
        loaded(words, 2_242),
        loaded(words, 2_243),
        loaded(words, 2_244),
        loaded(words, 2_245),
    ]
}

/// Puts both root words of a variable.
fn put_pair(words: &mut VecWords, regions: &Regions, variable: u32, pair: RootPair)
    requires known { variable < regions.now.variables }
    requires within { layouts_start regions.now ≤ length words.old }
    ensures { let at = root_at regions.now variable in
        words.new ≡ slice_set (slice_set words.old at pair.first) (at + 1) pair.second }
{
    regions.sizes_fit();
    let root = regions.root_at(variable);
    words.put(root, pair.first);
    words.put(root + 1, pair.second);
}

/// Makes a variable hold a value.
fn hold(words: &mut VecWords, regions: &Regions, variable: u32, value: Held)
    requires known { variable < regions.now.variables }
    requires within { layouts_start regions.now ≤ length words.old }
    ensures held { words.new ≡ with_root regions.now words.old variable value }
    ensures holds { Holds regions.now words.new variable value }
{
    put_pair(words, regions, variable, words_of(value));
}

/// Makes a variable hold what another one holds.
fn copy(words: &mut VecWords, regions: &Regions, from: u32, to: u32)
    requires known { from < regions.now.variables }
    requires target_known { to < regions.now.variables }
    requires within { layouts_start regions.now ≤ length words.old }
    requires root { IsRoot regions.now words.old from }
    ensures held { (held : What) → Holds regions.now words.old from held
        → words.new ≡ with_root regions.now words.old to held }
    ensures holds { (held : What) → Holds regions.now words.old from held
        → Holds regions.now words.new to held }
{
    let pair = root_words(words, regions, from);
    put_pair(words, regions, to, pair);
}

#[test]
fn a_variable_holds_each_value_by_its_two_words(rt: HostRuntime) -> Result<(), Fail> {
    // A page, eden and two segments of 64 words, and three variables.
    let sizes = Sizes {
        pages: 1,
        young: 64,
        helpers: 0,
    };
    let regions = Regions::new(sizes, 3);
    for (row, value, first, second, bound) in VALUES {
        let mut words = VecWords::new(rt.alloc(), regions.layout_at(0))?;
        assert!(rt; words.count() == 2_246);
        // What stood in the second words of two variables is gone afterwards.
        words.put(2_243, 7);
        words.put(2_245, 7);
        hold(&mut words, &regions, 1, value);
        assert!(rt; held_by(&mut words, &regions, 1) == value, "row {row}");
        assert!(rt; is_bound(&mut words, &regions, 1) == bound, "row {row}");
        copy(&mut words, &regions, 1, 2);
        assert!(rt; held_by(&mut words, &regions, 2) == value, "row {row}");
        let (first, second) = (Some(first), Some(second));
        let roots = [Some(0), Some(0), first, second, first, second];
        assert!(rt; all_root_words(&mut words) == roots, "words of row {row}");
    }
    Ok(())
}
