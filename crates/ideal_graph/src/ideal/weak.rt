//! The commands on weak maps.
ghost use Rattle.std.specs.Prelude.{◌≡◌, ◌<◌, [], IfOk, IfErr, length};
ghost use Rattle.heap_command.specs.declared.command.Command.{Command};
ghost use Rattle.ideal_graph.specs.Steps.{StepsTo, Steps};
ghost use Rattle.object_graph.specs.declared.object.Object.{Object};
ghost use Rattle.object_graph.specs.Graphs.{replace};
ghost use Rattle.object_graph.specs.Meaning.{no_entry_for, done};
ghost use Rattle.object_graph.specs.Reach.{reach};

use super::{Ideal, IdealStop, Said};
use heap_command::{FaultWord, Operand};
use ideal_parts::{bind, is_full_for, key, value_under, with_value, without_key};
use object_graph::limits::ENTRIES_MOST;
use object_graph::{Entries, Entry, Object, Value};

impl Ideal {
    /// Gives the key `k` of the weak map `m` the value.
    pub(crate) fn weak_put(&mut self, m: u32, k: Operand, v: Operand) -> Result<Said, IdealStop>
        ensures { Steps self.old self.new (Command.WPut m k v) result }
    {
        let target = self.bound(m)?;
        let named = self.value(k)?;
        let value = self.value(v)?;
        let weak = self.weak(target)?;
        let key = key(named)?;
        if self.is_full(weak.entries, key)? {
            return Err(IdealStop::ScriptFault(FaultWord::WeakFull));
        }
        let entries = with_value(self.alloc, weak.entries, key, value)?;
        let number = weak.number;
        self.reweave(number, entries)
    }

    /// Binds `y` to the value of the key `k` in the weak map `m`, or to `undefined`.
    pub(crate) fn weak_get(&mut self, y: u32, m: u32, k: Operand) -> Result<Said, IdealStop>
        ensures { Steps self.old self.new (Command.WGet y m k) result }
    {
        let target = self.bound(m)?;
        let named = self.value(k)?;
        let weak = self.weak(target)?;
        let key = key(named)?;
        let value = value_under(weak.entries, key).unwrap_or(Value::Undefined);
        bind(&mut self.bindings, y, value)?;
        Ok(Said::nothing(self.alloc))
    }

    /// Takes the entry of the key `k` out of the weak map `m`.
    pub(crate) fn weak_del(&mut self, m: u32, k: Operand) -> Result<Said, IdealStop>
        ensures { Steps self.old self.new (Command.WDel m k) result }
    {
        let target = self.bound(m)?;
        let named = self.value(k)?;
        let weak = self.weak(target)?;
        let key = key(named)?;
        let entries = without_key(self.alloc, weak.entries, key)?;
        let number = weak.number;
        self.reweave(number, entries)
    }

    /// Whether a weak map of these entries has no room for the key. Where they are fewer than it may have,
    /// no marks are needed.
    fn is_full(&self, entries: &[Entry], key: u32) -> Result<bool, IdealStop>
        ensures full { IfOk result (λ full.
            full ≡ no_entry_for (reach self.now.graph) entries.now key) }
        ensures memory { IfErr result (λ stop. stop ≡ IdealStop.NoMemory) }
    {
        if entries.len() < ENTRIES_MOST as usize {
            return Ok(false);
        }
        let marks = self.reached()?;
        Ok(is_full_for(&marks, entries, key))
    }

    /// Gives the weak map of this number these entries.
    fn reweave(&mut self, number: u32, entries: Vec<Entry>) -> Result<Said, IdealStop>
        requires { number < length self.old.graph.objects }
        ensures { StepsTo self.old self.new
            (done (replace self.old.graph number (Object.Weak entries.items)) []) result }
    {
        let entries = Entries::from_vec(entries);
        self.objects[number as usize] = Object::Weak { entries };
        Ok(Said::nothing(self.alloc))
    }
}
