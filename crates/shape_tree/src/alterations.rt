//! Alterations of paths: a field gets another representation, or is taken out. What was asked for before is cached: to
//! find it without the cache is a way up and down the tree.
ghost use Rattle.std.specs.Prelude.{◌≡◌, ◌<◌, ◌↔◌, length, IsTrue, IfOk, IfErr};
ghost use Rattle.shape_tree.specs.Shapes.{IsPathShape, shape_path, changed, without, Leads};
ghost use Rattle.shape_tree.specs.Shapes.{LacksPathsFor};
ghost use Rattle.shape_tree.specs.Nodes.{IsAlteration, no_alteration, alteration_entries};

use crate::full::ShapesFull;
use crate::tree::ShapeTree;
use object_graph::Rep;

/// How many entries the cache has.
pub(crate) const ALTERATION_ENTRIES: usize = 1024;

/// What becomes of a field.
#[derive(Clone, Copy, PartialEq, Eq)]
pub(crate) enum Becomes {
    /// It has this representation.
    To(Rep),
    /// It is taken out.
    Gone,
}

/// One field of the path of a shape becomes something else.
#[derive(Clone, Copy, PartialEq, Eq)]
pub(crate) struct Alteration {
    pub(crate) shape: u32,
    /// The place of the field.
    pub(crate) at: u32,
    pub(crate) becomes: Becomes,
}

/// An alteration, and the shape that it leads to.
#[derive(Clone, Copy)]
pub(crate) struct Altered {
    pub(crate) alteration: Alteration,
    /// Where it leads; 0 where none is cached.
    pub(crate) shape: u32,
}

/// The entry of the cache for an alteration. Several may share one: then the last one stands there.
#[inline(always)]
pub(crate) fn alteration_index(alteration: Alteration) -> usize
    ensures { result < alteration_entries }
{
    let becomes = match alteration.becomes {
        Becomes::To(Rep::Small) => 0,
        Becomes::To(Rep::Wide) => 256,
        Becomes::To(Rep::Tagged) => 512,
        Becomes::Gone => 768,
    };
    let mixed = alteration
        .shape
        .wrapping_add(alteration.at.wrapping_mul(61))
        .wrapping_add(becomes);
    mixed as usize % ALTERATION_ENTRIES
}

impl Altered {
    /// What stands where none is cached.
    pub(crate) fn empty() -> Altered
        ensures { result ≡ no_alteration }
    {
        let alteration = Alteration {
            shape: 0,
            at: 0,
            becomes: Becomes::Gone,
        };
        Altered {
            alteration,
            shape: 0,
        }
    }

    /// Whether this alteration is cached here.
    #[inline(always)]
    pub(crate) fn is_for(&self, alteration: Alteration) -> bool
        ensures { IsTrue result ↔ ((0 < self.now.shape) × (self.now.alteration ≡ alteration)) }
    {
        self.shape != 0 && self.alteration == alteration
    }
}

impl ShapeTree {
    /// The shape of the path, one field of which has another representation.
    ///
    /// # Errors
    /// There would be more than 8,192 paths; nothing has changed.
    pub fn change(&mut self, shape: u32, at: u32, rep: Rep) -> Result<u32, ShapesFull>
        requires path { IsPathShape self.old shape }
        requires there { at < length (shape_path self.old shape).fields }
        ensures changed { let path = changed (shape_path self.old shape) at rep in
            IfOk result (λ next. Leads self.old self.new path next) }
        ensures full { let path = changed (shape_path self.old shape) at rep in
            IfErr result (λ full. LacksPathsFor self.old self.new path full) }
    {
        let becomes = Becomes::To(rep);
        let alteration = Alteration { shape, at, becomes };
        let kept = &self.alterations[alteration_index(alteration)];
        if kept.is_for(alteration) {
            return Ok(kept.shape);
        }
        self.change_and_keep(shape, at, rep)
    }

    /// The same where the alteration is not cached; it is from now on.
    #[inline(never)]
    fn change_and_keep(&mut self, shape: u32, at: u32, rep: Rep) -> Result<u32, ShapesFull>
        requires path { IsPathShape self.old shape }
        requires there { at < length (shape_path self.old shape).fields }
        ensures changed { let path = changed (shape_path self.old shape) at rep in
            IfOk result (λ next. Leads self.old self.new path next) }
        ensures full { let path = changed (shape_path self.old shape) at rep in
            IfErr result (λ full. LacksPathsFor self.old self.new path full) }
    {
        let next = self.change_by_steps(shape, at, rep)?;
        let becomes = Becomes::To(rep);
        self.keep(Alteration { shape, at, becomes }, next);
        Ok(next)
    }

    /// The shape of the path with one field taken out; the later ones keep their order.
    ///
    /// # Errors
    /// There would be more than 8,192 paths; nothing has changed.
    pub fn without(&mut self, shape: u32, at: u32) -> Result<u32, ShapesFull>
        requires path { IsPathShape self.old shape }
        requires there { at < length (shape_path self.old shape).fields }
        ensures taken_out { let path = without (shape_path self.old shape) at in
            IfOk result (λ next. Leads self.old self.new path next) }
        ensures full { let path = without (shape_path self.old shape) at in
            IfErr result (λ full. LacksPathsFor self.old self.new path full) }
    {
        let becomes = Becomes::Gone;
        let alteration = Alteration { shape, at, becomes };
        let kept = &self.alterations[alteration_index(alteration)];
        if kept.is_for(alteration) {
            return Ok(kept.shape);
        }
        self.take_out_and_keep(shape, at)
    }

    /// The same where the alteration is not cached; it is from now on.
    #[inline(never)]
    fn take_out_and_keep(&mut self, shape: u32, at: u32) -> Result<u32, ShapesFull>
        requires path { IsPathShape self.old shape }
        requires there { at < length (shape_path self.old shape).fields }
        ensures taken_out { let path = without (shape_path self.old shape) at in
            IfOk result (λ next. Leads self.old self.new path next) }
        ensures full { let path = without (shape_path self.old shape) at in
            IfErr result (λ full. LacksPathsFor self.old self.new path full) }
    {
        let next = self.without_by_steps(shape, at)?;
        let becomes = Becomes::Gone;
        self.keep(Alteration { shape, at, becomes }, next);
        Ok(next)
    }

    /// Keeps an alteration at hand.
    fn keep(&mut self, alteration: Alteration, next: u32)
        requires is { IsAlteration self.old alteration next }
        ensures same { self.new ≡ self.old }
    {
        let entry = alteration_index(alteration);
        self.alterations[entry] = Altered {
            alteration,
            shape: next,
        };
    }
}
