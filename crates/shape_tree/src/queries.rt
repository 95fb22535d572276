//! What a tree of shapes tells of the path of a shape.
ghost use Rattle.std.specs.Prelude.{◌≡◌, ◌+◌, ◌-◌, ◌<◌, ◌≤◌, ◌↔◌, false, [], length, slice_get};
ghost use Rattle.std.specs.Prelude.{option_map, Some, IsTrue, IfSome, IsNone};
ghost use Rattle.tagged_word.specs.Layouts.{IsLayout, layout_bits};
ghost use Rattle.object_graph.specs.Paths.{prefix_of};
ghost use Rattle.heap_command.specs.Commands.{cap_most};
ghost use Rattle.object_graph.specs.Invariants.{IsPath, fields_most};
ghost use Rattle.shape_tree.specs.Shapes.{AreShapes, IsPathShape, IsShapeOf, shape_path, has_name, IsLocated};
ghost use Rattle.shape_tree.specs.CachedSlots.{IsCachedSlot};
ghost use Rattle.shape_tree.specs.ShapeLayouts.{IsInUse, layout_of, layout_word};
ghost use Rattle.shape_tree.specs.Nodes.{IsNodeOf};

use crate::located::{CachedSlot, Located};
use crate::look_ups::{keep_look_up, look_up_index};
use crate::node::Node;
use crate::tree::{FIRST, ShapeTree};
use object_graph::PathField;
use tagged_word::LayoutWord;
use tagged_word::shape::fixed_layout;

impl ShapeTree {
    /// How many paths there are: at most 8,192. Their shapes are the numbers from 8 on.
    #[inline]
    pub fn paths(&self) -> u32
        ensures counted { result ≡ length self.now }
        ensures good { AreShapes self.now }
    {
        self.nodes.len() as u32
    }

    /// There are at most 8,192 paths, and each has a shape. The call says so, and does nothing else.
    #[inline(always)]
    pub fn paths_fit(&self)
        ensures good { AreShapes self.now }
    {
        let _count = self.paths();
    }

    /// Whether the number is the shape of a path.
    #[inline]
    pub fn has_path(&self, shape: u32) -> bool
        ensures { IsTrue result ↔ IsPathShape self.now shape }
    {
        shape >= FIRST && shape - FIRST < self.paths()
    }

    /// The node of a path's shape.
    #[inline(always)]
    pub(crate) fn node(&self, shape: u32) -> Node
        requires { IsPathShape self.now shape }
        ensures { IsNodeOf self.now shape result }
    {
        self.nodes[(shape - FIRST) as usize]
    }

    /// The fields of a path's shape.
    #[inline(always)]
    pub(crate) fn fields_of(&self, shape: u32) -> &[PathField]
        requires { IsPathShape self.now shape }
        ensures fields { result.now ≡ (shape_path self.now shape).fields }
        ensures is { IsPath (shape_path self.now shape) }
    {
        let node = &self.nodes[(shape - FIRST) as usize];
        let start = node.start as usize;
        &self.fields[start..start + node.count as usize]
    }

    /// The shape of the path of no field and this cap.
    pub fn root(&self, cap: u32) -> u32
        requires { cap ≤ cap_most }
        ensures { IsShapeOf self.now (record { cap = cap; fields = [] }) result }
    {
        self.paths_fit();
        FIRST + cap
    }

    /// How many fields the path of a shape has: at most 64.
    #[inline]
    pub fn fields(&self, shape: u32) -> u32
        requires { IsPathShape self.now shape }
        ensures counted { result ≡ length (shape_path self.now shape).fields }
        ensures few { result ≤ fields_most }
    {
        self.node(shape).count
    }

    /// How many in-object slots an object of this shape has, used and unused: at most 8.
    #[inline(always)]
    pub fn cap(&self, shape: u32) -> u32
        requires { IsPathShape self.now shape }
        ensures cap { result ≡ (shape_path self.now shape).cap }
        ensures few { result ≤ cap_most }
    {
        self.node(shape).cap
    }

    /// The layout of the cells of a shape, of the fixed ones too.
    #[inline]
    pub fn layout(&self, shape: u32) -> LayoutWord
        requires { IsInUse self.now shape }
        ensures word { layout_bits result ≡ layout_word self.now shape }
        ensures is { IsLayout result }
        ensures of_path { IsPathShape self.now shape
            → result ≡ layout_of (shape_path self.now shape) }
    {
        match fixed_layout(shape) {
            Some(layout) => layout,
            None => self.node(shape).layout,
        }
    }

    /// The field at a place of the path of a shape, counted from 0.
    #[inline(always)]
    pub fn field(&self, shape: u32, at: u32) -> PathField
        requires path { IsPathShape self.now shape }
        requires there { at < length (shape_path self.now shape).fields }
        ensures { slice_get (shape_path self.now shape).fields at ≡ Some result }
    {
        // Each part is read by itself: a caller often needs but one.
        let field = &self.fields_of(shape)[at as usize];
        PathField {
            name: field.name,
            rep: field.rep,
        }
    }

    /// Where the field of this name stands in the path of a shape. What was found, a field or none, is kept at
    /// hand, so that it is found at once the next time.
    #[inline(always)]
    pub fn lookup(&mut self, shape: u32, name: u32) -> Option<Located>
        requires { IsPathShape self.old shape }
        ensures found { IfSome result (λ found.
            IsLocated self.old found × (found.shape ≡ shape) × (found.name ≡ name)) }
        ensures none { IsNone result ↔ (has_name (shape_path self.old shape) name ≡ false) }
        ensures same { self.new ≡ self.old }
    {
        let entry = look_up_index(shape, name);
        if !self.look_ups[entry].is_for(shape, name) {
            let node = &self.nodes[(shape - FIRST) as usize];
            let start = node.start as usize;
            let fields = &self.fields[start..start + node.count as usize];
            keep_look_up(&mut self.look_ups, entry, fields, node.cap, shape, name);
        }
        self.look_ups[entry].found()
    }

    /// What the look-up cache has of this name in the path of a shape. Nothing is sought, and the shape may be any:
    /// only those of paths are cached.
    #[inline(always)]
    pub fn cached_slot(&self, shape: u32, name: u32) -> CachedSlot
        ensures { IsCachedSlot self.now shape name result }
    {
        let kept = &self.look_ups[look_up_index(shape, name)];
        if !kept.is_for(shape, name) {
            return CachedSlot::Miss;
        }
        kept.cached()
    }

    /// The shape of the path without its last field.
    pub fn parent(&self, shape: u32) -> Option<u32>
        requires { IsPathShape self.now shape }
        ensures found { IfSome result (λ parent.
            let path = shape_path self.now shape in
            IsShapeOf self.now (prefix_of path (length path.fields - 1)) parent) }
        ensures none { IsNone result ↔ (length (shape_path self.now shape).fields ≡ 0) }
    {
        let node = self.node(shape);
        if node.count == 0 {
            None
        } else {
            Some(node.parent)
        }
    }
}
