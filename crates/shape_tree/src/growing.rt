//! How paths are added to a tree of shapes.
ghost use Rattle.std.specs.Prelude.{◌≡◌, ◌+◌, ◌*◌, ◌^◌, ◌<◌, ◌≤◌, [], ◌∷◌, ◌++◌};
ghost use Rattle.std.specs.Prelude.{length, take, drop, set, IfOk, IfErr};
ghost use Rattle.std.specs.Vec.{vec_len, vec_capacity};
ghost use Rattle.tagged_word.specs.Shapes.{first_path_shape};
ghost use Rattle.object_graph.specs.Paths.{missing};
ghost use Rattle.heap_command.specs.Commands.{cap_most};
ghost use Rattle.object_graph.specs.Invariants.{IsPath};
ghost use Rattle.object_graph.specs.Limits.{paths_most};
ghost use Rattle.shape_tree.specs.Shapes.{AreShapes, IsPathShape, IsShapeOf, shape_path, Leads};
ghost use Rattle.shape_tree.specs.Shapes.{LacksPathsFor};
ghost use Rattle.shape_tree.specs.ShapeLayouts.{raw_bit};
ghost use Rattle.shape_tree.specs.Growth.{extended, IsMissing, FirstIsMissing};

use crate::cached::{Cached, cache_index};
use crate::full::ShapesFull;
use crate::node::Node;
use crate::transition::Transition;
use crate::tree::{FIRST, ShapeTree, put_step};
use object_graph::{PathField, Rep};
use tagged_word::LayoutWord;

/// The layout of a path of `count` fields, which has this one, with a field more.
fn layout_with(layout: LayoutWord, count: u32, rep: Rep) -> LayoutWord
    requires capped { layout.cap ≤ cap_most }
    requires few { count < layout.cap → layout.raw < 2 ^ count }
    ensures full { layout.cap ≤ count → result ≡ layout }
    ensures more { count < layout.cap
        → result ≡ record layout { used = count + 1; raw = layout.raw + raw_bit rep * 2 ^ count } }
{
    if count >= layout.cap {
        return layout;
    }
    let raw = match rep {
        Rep::Wide => layout.raw + (1 << count),
        Rep::Small | Rep::Tagged => layout.raw,
    };
    LayoutWord {
        kind: layout.kind,
        cap: layout.cap,
        used: count + 1,
        raw,
    }
}

/// Puts a copy of the fields of a path behind all fields, with a field more. There is room for it.
fn push_fields(fields: &mut Vec<PathField>, start: u32, count: u32, field: PathField)
    requires within { start + count ≤ vec_len fields.old }
    requires fits { start + count < 2 ^ 32 }
    requires room { vec_len fields.old + count + 1 ≤ vec_capacity fields.old }
    ensures pushed { fields.new.items
        ≡ fields.old.items ++ (take count (drop start fields.old.items) ++ field ∷ []) }
    ensures room { vec_capacity fields.old ≤ vec_capacity fields.new }
{
    let copied = start as usize..(start + count) as usize;
    if fields.extend_from_within(copied).is_err() {
        unreachable!()
    }
    fields.push_reserved(field);
}

/// Puts a step at its entry of the cache, over what stood there.
fn put_cached(cache: &mut Vec<Cached>, entry: usize, cached: Cached)
    requires there { entry < vec_len cache.old }
    ensures { cache.new.items ≡ set cache.old.items entry cached }
{
    cache[entry] = cached;
}

impl ShapeTree {
    /// Adds the path with this field more.
    pub(crate) fn add(&mut self, parent: u32, field: PathField) -> u32
        requires path { IsPathShape self.old parent }
        requires missing { IsMissing self.old (extended (shape_path self.old parent) (field ∷ [])) }
        requires is { IsPath (extended (shape_path self.old parent) (field ∷ [])) }
        requires room { length self.old < paths_most }
        ensures added { let path = extended (shape_path self.old parent) (field ∷ []) in
            self.new ≡ self.old ++ path ∷ [] }
        ensures shape { result ≡ first_path_shape + length self.old }
    {
        let node = self.nodes[(parent - FIRST) as usize];
        let shape = FIRST + self.nodes.len() as u32;
        let start = self.fields.len() as u32;
        let layout = layout_with(node.layout, node.count, field.rep);
        push_fields(&mut self.fields, node.start, node.count, field);
        self.nodes.push_reserved(Node {
            cap: node.cap,
            start,
            count: node.count + 1,
            parent,
            layout,
        });
        let step = Transition { parent, field };
        put_step(&mut self.steps, step, shape);
        put_cached(&mut self.cache, cache_index(step), Cached { step, shape });
        shape
    }

    /// Adds each path that these fields lead to.
    fn grow(&mut self, from: u32, tail: &[PathField]) -> u32
        requires good { AreShapes self.old }
        requires path { IsPathShape self.old from }
        requires fresh { FirstIsMissing self.old (shape_path self.old from) tail.now }
        requires is { IsPath (extended (shape_path self.old from) tail.now) }
        requires room { length self.old + length tail.now ≤ paths_most }
        ensures added { let path = extended (shape_path self.old from) tail.now in
            self.new ≡ self.old ++ missing self.old path }
        ensures shape { IsShapeOf self.new (extended (shape_path self.old from) tail.now) result }
    {
        let mut shape = from;
        let mut rest = tail;
        while let [field, later @ ..] = rest {
            shape = self.add(shape, *field);
            rest = later;
        }
        shape
    }

    /// The shape of the path with these fields more. It is added with its missing prefixes, or
    /// nothing is, where there may not be so many.
    pub(crate) fn lead(&mut self, from: u32, tail: &[PathField]) -> Result<u32, ShapesFull>
        requires path { IsPathShape self.old from }
        requires is { IsPath (extended (shape_path self.old from) tail.now) }
        ensures led { let path = extended (shape_path self.old from) tail.now in
            IfOk result (λ next. Leads self.old self.new path next) }
        ensures full { let path = extended (shape_path self.old from) tail.now in
            IfErr result (λ full. LacksPathsFor self.old self.new path full) }
    {
        let walk = self.walk(from, tail);
        // Nothing may have been added by the time of a refusal.
        self.room_for(walk.rest.len() as u32)?;
        Ok(self.grow(walk.shape, walk.rest))
    }

    /// How many paths are missing of those that these fields lead to.
    pub(crate) fn missing_along(&self, from: u32, tail: &[PathField]) -> u32
        requires path { IsPathShape self.now from }
        requires is { IsPath (extended (shape_path self.now from) tail.now) }
        ensures { let path = extended (shape_path self.now from) tail.now in
            result ≡ length (missing self.now path) }
    {
        self.walk(from, tail).rest.len() as u32
    }
}
