//! The commands on lists. A list is changed in a copy, so that want of memory leaves it as it was.
ghost use Rattle.std.specs.Prelude.{◌<◌, [], length};
ghost use Rattle.heap_command.specs.declared.command.Command.{Command};
ghost use Rattle.object_graph.specs.declared.object.Object.{Object};
ghost use Rattle.object_graph.specs.Graphs.{replace};
ghost use Rattle.object_graph.specs.Meaning.{done};
ghost use Rattle.ideal_graph.specs.Steps.{StepsTo, Steps};

use super::{Ideal, IdealStop, Said};
use heap_command::{FaultWord, Operand};
use ideal_parts::{bind, count_of, element_at, integer, place_in};
use object_graph::limits::ELEMENTS_MOST;
use object_graph::{Elements, Object, Value};

impl Ideal {
    /// Puts the value last in the list `x`.
    pub(crate) fn push(&mut self, x: u32, v: Operand) -> Result<Said, IdealStop>
        ensures { Steps self.old self.new (Command.Push x v) result }
    {
        let target = self.bound(x)?;
        let value = self.value(v)?;
        let list = self.list(target)?;
        if list.elements.len() >= ELEMENTS_MOST as usize {
            return Err(IdealStop::ScriptFault(FaultWord::ListFull));
        }
        let mut elements = Vec::from_slice(self.alloc, list.elements)?;
        elements.push(value)?;
        let number = list.number;
        self.relist(number, elements)
    }

    /// Puts the value in place of element `i` of the list `x`.
    pub(crate) fn put(&mut self, x: u32, i: Operand, v: Operand) -> Result<Said, IdealStop>
        ensures { Steps self.old self.new (Command.Put x i v) result }
    {
        let target = self.bound(x)?;
        let index = self.value(i)?;
        let value = self.value(v)?;
        let list = self.list(target)?;
        let index = integer(index)?;
        let place = place_in(list.elements, index)?;
        let mut elements = Vec::from_slice(self.alloc, list.elements)?;
        elements[place] = value;
        let number = list.number;
        self.relist(number, elements)
    }

    /// Binds `y` to element `i` of the list `x`.
    pub(crate) fn at(&mut self, y: u32, x: u32, i: Operand) -> Result<Said, IdealStop>
        ensures { Steps self.old self.new (Command.At y x i) result }
    {
        let target = self.bound(x)?;
        let index = self.value(i)?;
        let list = self.list(target)?;
        let index = integer(index)?;
        let value = element_at(list.elements, index)?;
        bind(&mut self.bindings, y, value)?;
        Ok(Said::nothing(self.alloc))
    }

    /// Takes the first `n` elements out of the list `x`.
    pub(crate) fn shift(&mut self, x: u32, n: Operand) -> Result<Said, IdealStop>
        ensures { Steps self.old self.new (Command.Shift x n) result }
    {
        let target = self.bound(x)?;
        let count = self.value(n)?;
        let list = self.list(target)?;
        let count = integer(count)?;
        let gone = count_of(list.elements, count)?;
        let elements = Vec::from_slice(self.alloc, &list.elements[gone..])?;
        let number = list.number;
        self.relist(number, elements)
    }

    /// Leaves the first `n` elements in the list `x`.
    pub(crate) fn trunc(&mut self, x: u32, n: Operand) -> Result<Said, IdealStop>
        ensures { Steps self.old self.new (Command.Trunc x n) result }
    {
        let target = self.bound(x)?;
        let count = self.value(n)?;
        let list = self.list(target)?;
        let count = integer(count)?;
        let kept = count_of(list.elements, count)?;
        let elements = Vec::from_slice(self.alloc, &list.elements[..kept])?;
        let number = list.number;
        self.relist(number, elements)
    }

    /// Gives the list of this number these elements.
    fn relist(&mut self, number: u32, elements: Vec<Value>) -> Result<Said, IdealStop>
        requires { number < length self.old.graph.objects }
        ensures { StepsTo self.old self.new
            (done (replace self.old.graph number (Object.List elements.items)) []) result }
    {
        let elements = Elements::from_vec(elements);
        self.objects[number as usize] = Object::List { elements };
        Ok(Said::nothing(self.alloc))
    }
}
