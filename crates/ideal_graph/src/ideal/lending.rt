//! What a graph lends to a judge: its objects, its paths, what its variables are bound to, and which
//! objects can be reached.
ghost use Rattle.std.specs.Prelude.{◌≡◌, ◌≤◌, ◌↔◌, ℕ, IsTrue, IfOk, IfErr};
ghost use Rattle.std.specs.FinMap.{get};
ghost use Rattle.object_graph.specs.Reach.{reach};

use super::{Ideal, IdealStop};
use ideal_parts::has_none_from;
use object_graph::{Object, Path, Value};

impl Ideal {
    /// All objects ever made, by their numbers.
    pub fn objects(&self) -> &[Object]
        ensures { result.now ≡ self.now.graph.objects }
    {
        &self.objects
    }

    /// The field paths, in the order in which they came.
    pub fn paths(&self) -> &[Path]
        ensures { result.now ≡ self.now.graph.paths }
    {
        &self.paths
    }

    /// What the variable is bound to, if it is.
    pub fn binding(&self, x: u32) -> Option<Value>
        ensures { result ≡ get self.now.graph.bindings x }
    {
        self.bindings.get(&x).copied()
    }

    /// Whether no variable from this number on is bound.
    pub fn is_unbound_from(&self, least: u32) -> bool
        ensures { IsTrue result
            ↔ ((x : ℕ) → least ≤ x → get self.now.graph.bindings x ≡ None) }
    {
        has_none_from(&self.bindings, least)
    }

    /// The marks of what can be reached, by the objects' numbers.
    ///
    /// # Errors
    /// Only `IdealStop::NoMemory`: there was no memory for the marks.
    pub fn reachable(&self) -> Result<Vec<bool>, IdealStop>
        ensures marked { IfOk result (λ marks. marks.items ≡ reach self.now.graph) }
        ensures memory { IfErr result (λ stop. stop ≡ IdealStop.NoMemory) }
    {
        self.reached()
    }
}
