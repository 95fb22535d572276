//! The commands that write, and those that collect.
ghost use Rattle.std.specs.Prelude.{◌≡◌, []};
ghost use Rattle.heap_command.specs.declared.command.Command.{Command};
ghost use Rattle.object_graph.specs.Meaning.{done, same_value};
ghost use Rattle.object_graph.specs.Texts.{line, truth_text};
ghost use Rattle.ideal_graph.specs.Steps.{StepsTo, Steps};

use super::{Ideal, IdealStop, Said};
use heap_command::Operand;
use ideal_parts::{census_text, value_text};
use object_graph::Value;

impl Ideal {
    /// Writes the value, and a line feed.
    pub(crate) fn print(&mut self, v: Operand) -> Result<Said, IdealStop>
        ensures { Steps self.old self.new (Command.Print v) result }
    {
        let value = self.value(v)?;
        let mut text = value_text(self.alloc, &self.objects, value)?;
        text.push(b'\n')?;
        Ok(Said { text })
    }

    /// Writes whether the two values are the same.
    pub(crate) fn same(&mut self, a: Operand, b: Operand) -> Result<Said, IdealStop>
        ensures { Steps self.old self.new (Command.Same a b) result }
    {
        let first = self.value(a)?;
        let second = self.value(b)?;
        self.truth(is_same(first, second))
    }

    /// Writes `true` or `false`, and a line feed.
    pub(crate) fn truth(&mut self, truth: bool) -> Result<Said, IdealStop>
        ensures { StepsTo self.old self.new (done self.old.graph (line (truth_text truth))) result }
    {
        let line: &[u8] = if truth { b"true\n" } else { b"false\n" };
        let text = Vec::from_slice(self.alloc, line)?;
        Ok(Said { text })
    }

    /// Writes how many objects can be reached, and how many entries of weak maps.
    pub(crate) fn count(&mut self) -> Result<Said, IdealStop>
        ensures { Steps self.old self.new Command.Census result }
    {
        let census = self.census()?;
        let text = census_text(self.alloc, census.objects, census.entries)?;
        Ok(Said { text })
    }

    /// Collects nothing, for every object stays.
    pub(crate) fn collect(&mut self) -> Result<Said, IdealStop>
        ensures { StepsTo self.old self.new (done self.old.graph []) result }
    {
        Ok(Said::nothing(self.alloc))
    }
}

/// Whether the two are the same integer, both undefined, or the same object.
fn is_same(first: Value, second: Value) -> bool
    ensures { result ≡ same_value first second }
{
    match (first, second) {
        (Value::Int(a), Value::Int(b)) => a == b,
        (Value::Undefined, Value::Undefined) => true,
        (Value::Ref(a), Value::Ref(b)) => a == b,
        _ => false,
    }
}
