//! The commands that bind variables, to new objects or to values.
ghost use Rattle.std.specs.Prelude.{[]};
ghost use Rattle.heap_command.specs.declared.command.Command.{Command};
ghost use Rattle.object_graph.specs.Graphs.{make};
ghost use Rattle.object_graph.specs.Meaning.{done};
ghost use Rattle.ideal_graph.specs.Steps.{StepsTo, Steps};

use super::{Ideal, IdealStop, Said};
use heap_command::{FaultWord, Operand};
use ideal_parts::{bind, integer, unbind};
use object_graph::{Elements, Entries, Fields, Object, Value};

impl Ideal {
    /// Binds `x` to a new plain object.
    pub(crate) fn make_plain(&mut self, x: u32, cap: u32) -> Result<Said, IdealStop>
        ensures { Steps self.old self.new (Command.New x cap) result }
    {
        let fields = Fields::from_vec(Vec::new(self.alloc));
        let proto = None;
        self.make(x, Object::Plain { cap, proto, fields })
    }

    /// Binds `x` to a new list.
    pub(crate) fn make_list(&mut self, x: u32) -> Result<Said, IdealStop>
        ensures { Steps self.old self.new (Command.List x) result }
    {
        let elements = Elements::from_vec(Vec::new(self.alloc));
        self.make(x, Object::List { elements })
    }

    /// Binds `x` to a new weak map.
    pub(crate) fn make_weak(&mut self, x: u32) -> Result<Said, IdealStop>
        ensures { Steps self.old self.new (Command.Weak x) result }
    {
        let entries = Entries::from_vec(Vec::new(self.alloc));
        self.make(x, Object::Weak { entries })
    }

    /// Binds `x` to the object, as one more.
    fn make(&mut self, x: u32, object: Object) -> Result<Said, IdealStop>
        ensures { StepsTo self.old self.new (done (make self.old.graph x object) []) result }
    {
        let Ok(number) = u32::try_from(self.objects.len()) else {
            return Err(IdealStop::NoMemory);
        };
        // Room first: the push after the binding cannot fail, and a binding is not taken back.
        self.objects.reserve(1)?;
        bind(&mut self.bindings, x, Value::Ref(number))?;
        self.objects.push_reserved(object);
        Ok(Said::nothing(self.alloc))
    }

    /// Binds `x` to the value.
    pub(crate) fn let_value(&mut self, x: u32, v: Operand) -> Result<Said, IdealStop>
        ensures { Steps self.old self.new (Command.LetValue x v) result }
    {
        let value = self.value(v)?;
        bind(&mut self.bindings, x, value)?;
        Ok(Said::nothing(self.alloc))
    }

    /// Unbinds `x`.
    pub(crate) fn drop_var(&mut self, x: u32) -> Result<Said, IdealStop>
        ensures { Steps self.old self.new (Command.DropVar x) result }
    {
        self.bound(x)?;
        unbind(&mut self.bindings, x);
        Ok(Said::nothing(self.alloc))
    }

    /// Binds `x` to the sum of its integer and the value.
    pub(crate) fn add(&mut self, x: u32, v: Operand) -> Result<Said, IdealStop>
        ensures { Steps self.old self.new (Command.Add x v) result }
    {
        let first = self.bound(x)?;
        let second = self.value(v)?;
        let first = integer(first)?;
        let second = integer(second)?;
        let Some(sum) = first.checked_add(second) else {
            return Err(IdealStop::ScriptFault(FaultWord::Overflow));
        };
        bind(&mut self.bindings, x, Value::Int(sum))?;
        Ok(Said::nothing(self.alloc))
    }
}
