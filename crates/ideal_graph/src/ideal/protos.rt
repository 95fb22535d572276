//! The commands that give a prototype and that look along prototypes.
ghost use Rattle.std.specs.Prelude.{◌<◌, [], length};
ghost use Rattle.heap_command.specs.declared.command.Command.{Command};
ghost use Rattle.object_graph.specs.declared.object.Object.{Object};
ghost use Rattle.object_graph.specs.Graphs.{replace};
ghost use Rattle.object_graph.specs.Meaning.{done};
ghost use Rattle.ideal_graph.specs.Steps.{StepsTo, Steps};

use super::{Ideal, IdealStop, Said};
use heap_command::{FaultWord, Operand};
use ideal_parts::bind;
use object_graph::{Field, Fields, Object, Value};

impl Ideal {
    /// Binds `y` to the field `f` of `x`, or of the nearest of its first 64 prototypes that has one, else to
    /// `undefined`.
    pub(crate) fn get(&mut self, y: u32, x: u32, f: u32) -> Result<Said, IdealStop>
        ensures { Steps self.old self.new (Command.Get y x f) result }
    {
        let target = self.bound(x)?;
        let plain = self.plain(target)?;
        let value = self.field(&plain, f).unwrap_or(Value::Undefined);
        bind(&mut self.bindings, y, value)?;
        Ok(Said::nothing(self.alloc))
    }

    /// Gives `x` the value as its prototype, or takes it away where the value is `undefined`.
    pub(crate) fn proto(&mut self, x: u32, v: Operand) -> Result<Said, IdealStop>
        ensures { Steps self.old self.new (Command.Proto x v) result }
    {
        let target = self.bound(x)?;
        let value = self.value(v)?;
        let plain = self.plain(target)?;
        let proto = self.proto_for(value)?;
        if self.makes_ring(plain.number, proto) {
            return Err(IdealStop::ScriptFault(FaultWord::Ring));
        }
        let fields = Vec::from_slice(self.alloc, plain.fields)?;
        let (number, cap) = (plain.number, plain.cap);
        self.lead(number, cap, proto, fields)
    }

    /// Gives the plain object of this number this prototype. The cap and the fields are its own.
    fn lead(
        &mut self,
        number: u32,
        cap: u32,
        proto: Option<u32>,
        fields: Vec<Field>,
    ) -> Result<Said, IdealStop>
        requires { number < length self.old.graph.objects }
        ensures { StepsTo self.old self.new
            (done (replace self.old.graph number (Object.Plain cap proto fields.items)) []) result }
    {
        let fields = Fields::from_vec(fields);
        self.objects[number as usize] = Object::Plain { cap, proto, fields };
        Ok(Said::nothing(self.alloc))
    }
}
