//! The changes of fields: which shape they lead to, and how many paths are missing for them.
ghost use Rattle.std.specs.Prelude.{◌≡◌, ◌+◌, ◌<◌, ◌≤◌, false, length, OnOk, IfOk, IfErr, IfSome};
ghost use Rattle.object_graph.specs.declared.path.Path.{Path};
ghost use Rattle.object_graph.specs.Paths.{missing};
ghost use Rattle.object_graph.specs.Invariants.{fields_most};
ghost use Rattle.object_graph.specs.Limits.{paths_most};
ghost use Rattle.shape_tree.specs.Shapes.{IsPathShape, shape_path, has_name, stepped, changed};
ghost use Rattle.shape_tree.specs.Shapes.{without, IsShapeOf, Leads, LacksPathsFor};
ghost use Rattle.shape_tree.specs.Growth.{extended, IsStep};

use crate::full::ShapesFull;
use crate::route::{Route, Tail};
use crate::transition::Step;
use crate::tree::ShapeTree;
use object_graph::limits::PATHS_MOST;
use object_graph::{PathField, Rep};

impl ShapeTree {
    ghost use Rattle.shape_tree.specs.Walks.{RoutesTo};

    /// The shape of the path with these fields more, if the steps to it are found. Callers go on
    /// without an answer too, so nothing is said of none.
    fn there_along(&self, from: u32, tail: &[PathField]) -> Option<u32>
        requires { IsPathShape self.now from }
        ensures { let path = extended (shape_path self.now from) tail.now in
            IfSome result (IsShapeOf self.now path) }
    {
        let walk = self.walk(from, tail);
        if walk.rest.is_empty() {
            Some(walk.shape)
        } else {
            None
        }
    }

    /// The shape of the path, one field of which has another representation, if the steps to it are
    /// found. The fields are read where they stand: to add paths they are copied.
    fn there_changed(&self, shape: u32, at: u32, rep: Rep) -> Option<u32>
        requires path { IsPathShape self.now shape }
        requires there { at < length (shape_path self.now shape).fields }
        ensures { let path = changed (shape_path self.now shape) at rep in
            IfSome result (IsShapeOf self.now path) }
    {
        let fields = self.fields_of(shape);
        let name = fields[at as usize].name;
        let next = self.child(self.ancestor(shape, at), PathField { name, rep })?;
        self.there_along(next, &fields[at as usize + 1..])
    }

    /// The shape of the path without one field, if the steps to it are found, as for
    /// `there_changed`.
    fn there_without(&self, shape: u32, at: u32) -> Option<u32>
        requires path { IsPathShape self.now shape }
        requires there { at < length (shape_path self.now shape).fields }
        ensures { let path = without (shape_path self.now shape) at in
            IfSome result (IsShapeOf self.now path) }
    {
        let fields = self.fields_of(shape);
        self.there_along(self.ancestor(shape, at), &fields[at as usize + 1..])
    }

    /// The way to the path of a shape, one field of which has another representation.
    fn way_to_changed(&self, shape: u32, at: u32, rep: Rep) -> Route
        requires path { IsPathShape self.now shape }
        requires there { at < length (shape_path self.now shape).fields }
        ensures { RoutesTo self.now (changed (shape_path self.now shape) at rep) result }
    {
        let mut tail = Tail::of(&self.fields_of(shape)[at as usize..]);
        tail.set_rep(rep);
        let from = self.ancestor(shape, at);
        Route { from, tail }
    }

    /// The way to the path of a shape without one field.
    fn way_without(&self, shape: u32, at: u32) -> Route
        requires path { IsPathShape self.now shape }
        requires there { at < length (shape_path self.now shape).fields }
        ensures { RoutesTo self.now (without (shape_path self.now shape) at) result }
    {
        let tail = Tail::of(&self.fields_of(shape)[at as usize + 1..]);
        let from = self.ancestor(shape, at);
        Route { from, tail }
    }

    /// Where the step to the path with a field more leads. There may be as many paths as it needs.
    ///
    /// # Errors
    /// There may not be as many paths.
    #[inline]
    pub fn can_step(&self, shape: u32, field: PathField) -> Result<Step, ShapesFull>
        requires path { IsPathShape self.now shape }
        requires is_new { has_name (shape_path self.now shape) field.name ≡ false }
        requires room { length (shape_path self.now shape).fields < fields_most }
        ensures step { let path = stepped (shape_path self.now shape) field.name field.rep in
            IfOk result (IsStep self.now path) }
        ensures room { let path = stepped (shape_path self.now shape) field.name field.rep in
            OnOk result (length self.now + length (missing self.now path) ≤ paths_most) }
        ensures full { let path = stepped (shape_path self.now shape) field.name field.rep in
            IfErr result (λ full. LacksPathsFor self.now self.now path full) }
    {
        self.paths_fit();
        match self.child(shape, field) {
            Some(next) => Ok(Step::Found(next)),
            None => {
                self.room_for(1)?;
                Ok(Step::Missing)
            }
        }
    }

    /// The shape of the path with a field more, which comes last. It is added where it is missing.
    #[inline]
    pub fn step(&mut self, shape: u32, field: PathField, step: Step) -> u32
        requires path { IsPathShape self.old shape }
        requires is_new { has_name (shape_path self.old shape) field.name ≡ false }
        requires room { length (shape_path self.old shape).fields < fields_most }
        requires step { let path = stepped (shape_path self.old shape) field.name field.rep in
            IsStep self.old path step }
        ensures { let path = stepped (shape_path self.old shape) field.name field.rep in
            Leads self.old self.new path result }
    {
        self.paths_fit();
        match step {
            Step::Found(next) => next,
            Step::Missing => self.add(shape, field),
        }
    }

    /// The shape of the path, one field of which has another representation, by the steps of the tree.
    pub(crate) fn change_by_steps(
        &mut self,
        shape: u32,
        at: u32,
        rep: Rep,
    ) -> Result<u32, ShapesFull>
        requires path { IsPathShape self.old shape }
        requires there { at < length (shape_path self.old shape).fields }
        ensures changed { let path = changed (shape_path self.old shape) at rep in
            IfOk result (λ next. Leads self.old self.new path next) }
        ensures full { let path = changed (shape_path self.old shape) at rep in
            IfErr result (λ full. LacksPathsFor self.old self.new path full) }
    {
        self.paths_fit();
        match self.there_changed(shape, at, rep) {
            Some(next) => Ok(next),
            None => self.lead_to_changed(shape, at, rep),
        }
    }

    /// The same, where steps to the path may be missing. Its route is large, so it is kept out of
    /// line.
    #[cold]
    #[inline(never)]
    fn lead_to_changed(&mut self, shape: u32, at: u32, rep: Rep) -> Result<u32, ShapesFull>
        requires path { IsPathShape self.old shape }
        requires there { at < length (shape_path self.old shape).fields }
        ensures changed { let path = changed (shape_path self.old shape) at rep in
            IfOk result (λ next. Leads self.old self.new path next) }
        ensures full { let path = changed (shape_path self.old shape) at rep in
            IfErr result (λ full. LacksPathsFor self.old self.new path full) }
    {
        let route = self.way_to_changed(shape, at, rep);
        self.lead(route.from, route.tail.as_slice())
    }

    /// The shape of the path with one field taken out, by the steps of the tree.
    pub(crate) fn without_by_steps(&mut self, shape: u32, at: u32) -> Result<u32, ShapesFull>
        requires path { IsPathShape self.old shape }
        requires there { at < length (shape_path self.old shape).fields }
        ensures taken_out { let path = without (shape_path self.old shape) at in
            IfOk result (λ next. Leads self.old self.new path next) }
        ensures full { let path = without (shape_path self.old shape) at in
            IfErr result (λ full. LacksPathsFor self.old self.new path full) }
    {
        self.paths_fit();
        match self.there_without(shape, at) {
            Some(next) => Ok(next),
            None => self.lead_without(shape, at),
        }
    }

    /// The same, where steps to the path may be missing, out of line as for `lead_to_changed`.
    #[cold]
    #[inline(never)]
    fn lead_without(&mut self, shape: u32, at: u32) -> Result<u32, ShapesFull>
        requires path { IsPathShape self.old shape }
        requires there { at < length (shape_path self.old shape).fields }
        ensures taken_out { let path = without (shape_path self.old shape) at in
            IfOk result (λ next. Leads self.old self.new path next) }
        ensures full { let path = without (shape_path self.old shape) at in
            IfErr result (λ full. LacksPathsFor self.old self.new path full) }
    {
        let route = self.way_without(shape, at);
        self.lead(route.from, route.tail.as_slice())
    }

    /// There may be so many paths more.
    ///
    /// # Errors
    /// There may not.
    pub fn room_for(&self, more: u32) -> Result<(), ShapesFull>
        ensures room { OnOk result (length self.now + more ≤ paths_most) }
        ensures full { IfErr result (λ full. (path : Path) → length (missing self.now path) ≡ more
            → LacksPathsFor self.now self.now path full) }
    {
        let paths = self.paths();
        if more <= PATHS_MOST - paths {
            Ok(())
        } else {
            let missing = more;
            Err(ShapesFull { paths, missing })
        }
    }

    /// How many paths `change` would add. It is not refused where there is room for them.
    pub fn missing_change(&self, shape: u32, at: u32, rep: Rep) -> u32
        requires path { IsPathShape self.now shape }
        requires there { at < length (shape_path self.now shape).fields }
        ensures { let path = changed (shape_path self.now shape) at rep in
            result ≡ length (missing self.now path) }
    {
        self.paths_fit();
        let fields = self.fields_of(shape);
        let name = fields[at as usize].name;
        let Some(next) = self.child(self.ancestor(shape, at), PathField { name, rep }) else {
            // No path with a missing prefix is there.
            return fields.len() as u32 - at;
        };
        self.missing_along(next, &fields[at as usize + 1..])
    }

    /// How many paths `without` would add, as for `missing_change`.
    pub fn missing_without(&self, shape: u32, at: u32) -> u32
        requires path { IsPathShape self.now shape }
        requires there { at < length (shape_path self.now shape).fields }
        ensures { let path = without (shape_path self.now shape) at in
            result ≡ length (missing self.now path) }
    {
        let fields = self.fields_of(shape);
        self.missing_along(self.ancestor(shape, at), &fields[at as usize + 1..])
    }
}
