//! The transition cache: steps that are kept at hand. The table in `tree.rt` has all of them, but
//! hashes to find one; most steps that are asked for were asked for before.
ghost use Rattle.std.specs.Prelude.{◌≡◌, ◌<◌, ◌↔◌, IsTrue};
ghost use Rattle.shape_tree.specs.Nodes.{empty_entry, cache_entries};

use crate::transition::Transition;
use object_graph::{PathField, Rep};

/// How many entries the cache has.
pub(crate) const CACHE_ENTRIES: usize = 4096;

/// A step that was added, at hand so that it need not be hashed.
#[derive(Clone, Copy)]
pub(crate) struct Cached {
    pub(crate) step: Transition,
    /// Where it leads; 0 where no step is cached.
    pub(crate) shape: u32,
}

/// The entry of the cache for a step. Steps may share one: then the later one stands there.
#[inline(always)]
pub(crate) fn cache_index(step: Transition) -> usize
    ensures { result < cache_entries }
{
    let rep = match step.field.rep {
        Rep::Small => 0,
        Rep::Wide => 1024,
        Rep::Tagged => 2048,
    };
    let mixed = step
        .parent
        .wrapping_add(step.field.name.wrapping_mul(61))
        .wrapping_add(rep);
    mixed as usize % CACHE_ENTRIES
}

impl Cached {
    /// What stands where no step is cached.
    pub(crate) fn empty() -> Cached
        ensures { result ≡ empty_entry }
    {
        let field = PathField {
            name: 0,
            rep: Rep::Small,
        };
        let step = Transition { parent: 0, field };
        Cached { step, shape: 0 }
    }

    /// Whether this step is cached here.
    #[inline(always)]
    pub(crate) fn is_for(&self, step: Transition) -> bool
        ensures { IsTrue result ↔ ((0 < self.now.shape) × (self.now.step ≡ step)) }
    {
        self.shape != 0 && self.step == step
    }
}
