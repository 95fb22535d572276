//! What a command reads: variables, operands, and the objects that values refer to.
//!
//! A command reads its variables from left to right before it judges any value, since the first
//! unbound one is its fault.
ghost use Rattle.std.specs.Prelude.{◌≡◌, ◌<◌, IfOk, length};
ghost use Rattle.std.specs.FinMap.{get};
ghost use Rattle.object_graph.specs.Graphs.{value_of, plain_at, list_at, weak_at};
ghost use Rattle.object_graph.specs.Prototypes.{field_along, prototypes_most, proto_for, makes_ring};
ghost use Rattle.ideal_parts.specs.Lookups.{IsLookup, FindsAs, seen_plain, seen_list, seen_weak};

use super::Ideal;
use heap_command::{FaultWord, Operand};
use ideal_parts::{
    List, Plain, Weak, field_along, list_at, makes_ring, plain_at, proto_for, weak_at,
};
use object_graph::Value;
use object_graph::limits::PROTOTYPES_MOST;

impl Ideal {
    /// What the variable is bound to.
    pub(crate) fn bound(&self, x: u32) -> Result<Value, FaultWord>
        ensures { IsLookup FaultWord.Unbound (get self.now.graph.bindings x) result }
    {
        self.bindings.get(&x).copied().ok_or(FaultWord::Unbound)
    }

    /// The value that the operand stands for.
    pub(crate) fn value(&self, operand: Operand) -> Result<Value, FaultWord>
        ensures { IsLookup FaultWord.Unbound (value_of self.now.graph operand) result }
    {
        match operand {
            Operand::Int(v) => Ok(Value::Int(v)),
            Operand::Undefined => Ok(Value::Undefined),
            Operand::Var(x) => self.bound(x),
        }
    }

    /// The plain object that the value refers to.
    pub(crate) fn plain(&self, value: Value) -> Result<Plain<'_>, FaultWord>
        ensures found { FindsAs seen_plain FaultWord.NotObject
            (plain_at self.now.graph.objects value) result }
        ensures within { IfOk result (λ plain. plain.number < length self.now.graph.objects) }
    {
        plain_at(&self.objects, value)
    }

    /// The list that the value refers to.
    pub(crate) fn list(&self, value: Value) -> Result<List<'_>, FaultWord>
        ensures found { FindsAs seen_list FaultWord.NotList
            (list_at self.now.graph.objects value) result }
        ensures within { IfOk result (λ list. list.number < length self.now.graph.objects) }
    {
        list_at(&self.objects, value)
    }

    /// The weak map that the value refers to.
    pub(crate) fn weak(&self, value: Value) -> Result<Weak<'_>, FaultWord>
        ensures found { FindsAs seen_weak FaultWord.NotWeak
            (weak_at self.now.graph.objects value) result }
        ensures within { IfOk result (λ weak. weak.number < length self.now.graph.objects) }
    {
        weak_at(&self.objects, value)
    }

    /// The value of the field of this name in the first object that has it: the plain object itself, or one
    /// of those that follow it by prototypes.
    pub(crate) fn field(&self, plain: &Plain<'_>, name: u32) -> Option<Value>
        ensures { result ≡ field_along self.now.graph.objects prototypes_most (seen_plain plain.now) name }
    {
        field_along(&self.objects, PROTOTYPES_MOST, plain, name)
    }

    /// The prototype that a value gives.
    pub(crate) fn proto_for(&self, value: Value) -> Result<Option<u32>, FaultWord>
        ensures { IsLookup FaultWord.NotObject (proto_for self.now.graph.objects value) result }
    {
        proto_for(&self.objects, value)
    }

    /// Whether the object would be in a ring with this prototype.
    pub(crate) fn makes_ring(&self, number: u32, proto: Option<u32>) -> bool
        ensures { result ≡ makes_ring self.now.graph.objects number proto }
    {
        makes_ring(&self.objects, number, proto)
    }
}
