//! The commands on the fields of plain objects, but for `get`, which goes along prototypes (in `protos`).
ghost use Rattle.std.specs.Prelude.{◌<◌, length};
ghost use Rattle.heap_command.specs.declared.command.Command.{Command};
ghost use Rattle.object_graph.specs.Meaning.{reshape};
ghost use Rattle.object_graph.specs.Limits.{ideal_limits};
ghost use Rattle.ideal_graph.specs.Steps.{StepsTo, Steps};
ghost use Rattle.ideal_graph.specs.Lookups.{LearnsPath};

use super::{Ideal, IdealStop, Said};
use heap_command::{FaultWord, Operand};
use ideal_parts::{
    has_no_room, missing, path_of, same_path, shape_text, value_under, with_value, without_key,
};
use object_graph::limits::PATHS_MOST;
use object_graph::{Field, Fields, Object, Path};
use std::alloc::Global;

impl Ideal {
    /// Gives the field `f` of `x` the value.
    pub(crate) fn set(&mut self, x: u32, f: u32, v: Operand) -> Result<Said, IdealStop>
        ensures { Steps self.old self.new (Command.Set x f v) result }
    {
        let target = self.bound(x)?;
        let value = self.value(v)?;
        let plain = self.plain(target)?;
        if has_no_room(&plain, f) {
            return Err(IdealStop::ScriptFault(FaultWord::FieldsFull));
        }
        let fields = with_value(self.alloc, plain.fields, f, value)?;
        let (number, cap, proto) = (plain.number, plain.cap, plain.proto);
        self.reshape(number, cap, proto, fields)
    }

    /// Takes the field `f` out of `x`.
    pub(crate) fn del(&mut self, x: u32, f: u32) -> Result<Said, IdealStop>
        ensures { Steps self.old self.new (Command.Del x f) result }
    {
        let target = self.bound(x)?;
        let plain = self.plain(target)?;
        if value_under(plain.fields, f).is_none() {
            return Ok(Said::nothing(self.alloc));
        }
        let fields = without_key(self.alloc, plain.fields, f)?;
        let (number, cap, proto) = (plain.number, plain.cap, plain.proto);
        self.reshape(number, cap, proto, fields)
    }

    /// Gives the plain object of this number these fields, and adds its path.
    fn reshape(
        &mut self,
        number: u32,
        cap: u32,
        proto: Option<u32>,
        fields: Vec<Field>,
    ) -> Result<Said, IdealStop>
        requires { number < length self.old.graph.objects }
        ensures { StepsTo self.old self.new
            (reshape ideal_limits self.old.graph
            (record { number = number; cap = cap; proto = proto; fields = fields.items }) fields.items) result }
    {
        // The path first: where it cannot be added, the object keeps its fields.
        let path = path_of(self.alloc, cap, &fields)?;
        add_path(self.alloc, &mut self.paths, &path)?;
        let fields = Fields::from_vec(fields);
        self.objects[number as usize] = Object::Plain { cap, proto, fields };
        Ok(Said::nothing(self.alloc))
    }

    /// Writes whether the two plain objects have the same cap and the same fields, but for the values.
    pub(crate) fn alike(&mut self, x: u32, y: u32) -> Result<Said, IdealStop>
        ensures { Steps self.old self.new (Command.Alike x y) result }
    {
        let first = self.bound(x)?;
        let second = self.bound(y)?;
        let first = self.plain(first)?;
        let second = self.plain(second)?;
        let path = path_of(self.alloc, first.cap, first.fields)?;
        let other = path_of(self.alloc, second.cap, second.fields)?;
        self.truth(same_path(&path, &other))
    }

    /// Writes the cap and the fields of `x`, but for the values.
    pub(crate) fn shape(&mut self, x: u32) -> Result<Said, IdealStop>
        ensures { Steps self.old self.new (Command.Shape x) result }
    {
        let target = self.bound(x)?;
        let plain = self.plain(target)?;
        let mut text = shape_text(self.alloc, &self.names, plain.cap, plain.fields)?;
        text.push(b'\n')?;
        Ok(Said { text })
    }
}

/// Adds the path, and those of its prefixes that are not there, shortest first.
fn add_path(alloc: Global, paths: &mut Vec<Path>, path: &Path) -> Result<(), IdealStop>
    ensures { LearnsPath ideal_limits.paths paths.old.items paths.new.items path.now result }
{
    let mut more = missing(alloc, paths, path)?;
    if paths.len() + more.len() > PATHS_MOST as usize {
        return Err(IdealStop::ScriptFault(FaultWord::ShapesFull));
    }
    paths.append(&mut more)?;
    Ok(())
}
