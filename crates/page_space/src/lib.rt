//! Page space: the regions that the words of a heap are cut into, and the sizes that decide them.
//!
//! Model: a `Space`, the sizes of the heap and the number of variables. `stretches` of
//! `specs/Extents.antt` lists the regions in order with their numbers of words; where each stands,
//! and how many words there are, comes from that list.
//! Invariant: the sizes are within their limits, and the numbers that are kept are the first
//! addresses of the kinds of regions. `laws_of_regions` says what the list comes to.
#![tactic(auto)]

mod laws;
mod region;
mod regions;
mod run;
mod sizes;

pub use laws::laws_of_regions;
pub use region::Region;
pub use regions::{BOARD_WORDS, Regions, board_words_are_those_of_its_region};
pub use run::Run;
pub use sizes::{
    HELPERS_MOST, PAGE_WORDS, PAGES_MOST, Sizes, VARIABLES_MOST, YOUNG_LEAST, YOUNG_MOST,
    limits_are_those_of_sizes,
};
