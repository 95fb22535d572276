//! The plain, slow program whose contract is the meaning of the commands.
ghost use Rattle.std.specs.Prelude.{◌≡◌, [], map, IfOk, IfErr};
ghost use Rattle.object_graph.specs.Graphs.{start};
ghost use Rattle.ideal_graph.specs.Steps.{Steps};

mod bindings;
mod lending;
mod lists;
mod lookups;
mod printing;
mod protos;
mod reach;
mod shapes;
mod weak;

use heap_command::{Command, FaultWord};
use ideal_parts::empty_paths;
use object_graph::{Object, Path, Value};
pub use reach::Census;
use std::alloc::{AllocError, AllocFailed, Global};
use std::collections::BTreeMap;
use std::marker::Model;

/// Why a step was not made. The graph is as it was.
#[derive(Clone, Copy, Debug, PartialEq, Eq)]
pub enum IdealStop {
    ScriptFault(FaultWord),
    NoMemory,
}

impl From<FaultWord> for IdealStop {
    ghost use Rattle.ideal_graph.specs.declared.ideal.IdealStop.TheVariants.{ScriptFault};

    ghost from_gives = { λ word stop. stop ≡ ScriptFault word };

    fn from(word: FaultWord) -> IdealStop {
        IdealStop::ScriptFault(word)
    }
}

impl From<AllocError> for IdealStop {
    ghost use Rattle.ideal_graph.specs.declared.ideal.IdealStop.TheVariants.{NoMemory};

    ghost from_gives = { λ _ stop. stop ≡ NoMemory };

    fn from(_error: AllocError) -> IdealStop {
        IdealStop::NoMemory
    }
}

impl<T: Drop> From<AllocFailed<T>> for IdealStop {
    ghost use Rattle.ideal_graph.specs.declared.ideal.IdealStop.TheVariants.{NoMemory};

    ghost from_gives = { λ _ stop. stop ≡ NoMemory };

    fn from(_error: AllocFailed<T>) -> IdealStop {
        IdealStop::NoMemory
    }
}

/// The text of a command that was carried out.
#[derive(Debug, Drop)]
pub struct Said {
    pub text: Vec<u8>,
}

impl Model for Said {
    ghost use Rattle.std.specs.Prelude.{List, ℕ};

    ghost Value = { List ℕ };

    ghost view = { λ said. said.text.items };
}

impl Said {
    /// The text of a command that writes nothing.
    pub(crate) fn nothing(alloc: Global) -> Said
        ensures { result ≡ [] }
    {
        Said {
            text: Vec::new(alloc),
        }
    }
}

/// The graph of a script, and the names of its fields by number.
#[derive(Drop)]
pub struct Ideal {
    names: Vec<Vec<u8>>,
    objects: Vec<Object>,
    bindings: BTreeMap<u32, Value>,
    paths: Vec<Path>,
    alloc: Global,
}

impl Model for Ideal {
    ghost use Rattle.std.specs.Prelude.{map};
    ghost use Rattle.std.specs.FinMap.{from_entries};
    ghost use Rattle.ideal_graph.specs.Steps.{NamedGraph};
    ghost use Rattle.ideal_graph.specs.Codes.{named_graph_code};

    ghost Value = { NamedGraph };

    ghost coded = { named_graph_code };

    ghost view = { λ ideal. record {
      names = map (λ name. name.items) ideal.names.items;
      graph = record {
        objects = ideal.objects.items;
        bindings = from_entries ideal.bindings.entries;
        paths = ideal.paths.items;
      };
    } };
}

impl Ideal {
    /// A graph without objects and bound variables. `names` are the field names by number.
    pub fn new(alloc: Global, names: Vec<Vec<u8>>) -> Result<Ideal, IdealStop>
        ensures made { IfOk result (λ ideal.
            ideal ≡ record { names = map (λ name. name.items) names.items; graph = start }) }
        ensures memory { IfErr result (λ stop. stop ≡ IdealStop.NoMemory) }
    {
        let paths = empty_paths(alloc)?;
        Ok(Ideal {
            names,
            objects: Vec::new(alloc),
            bindings: BTreeMap::new(alloc),
            paths,
            alloc,
        })
    }

    /// Carries the command out. A fault and want of memory leave the graph as it was.
    pub fn step(&mut self, command: &Command) -> Result<Said, IdealStop>
        ensures { Steps self.old self.new command.now result }
    {
        match *command {
            Command::New { x, cap } => self.make_plain(x, cap),
            Command::List { x } => self.make_list(x),
            Command::Weak { x } => self.make_weak(x),
            Command::LetValue { x, v } => self.let_value(x, v),
            Command::DropVar { x } => self.drop_var(x),
            Command::Add { x, v } => self.add(x, v),
            Command::Set { x, f, v } => self.set(x, f, v),
            Command::Get { y, x, f } => self.get(y, x, f),
            Command::Del { x, f } => self.del(x, f),
            Command::Proto { x, v } => self.proto(x, v),
            Command::Push { x, v } => self.push(x, v),
            Command::Put { x, i, v } => self.put(x, i, v),
            Command::At { y, x, i } => self.at(y, x, i),
            Command::Shift { x, n } => self.shift(x, n),
            Command::Trunc { x, n } => self.trunc(x, n),
            Command::WPut { m, k, v } => self.weak_put(m, k, v),
            Command::WGet { y, m, k } => self.weak_get(y, m, k),
            Command::WDel { m, k } => self.weak_del(m, k),
            Command::Print { v } => self.print(v),
            Command::Same { a, b } => self.same(a, b),
            Command::Alike { x, y } => self.alike(x, y),
            Command::Shape { x } => self.shape(x),
            Command::Scavenge | Command::Mark | Command::Finish | Command::Gc => self.collect(),
            Command::Census => self.count(),
        }
    }
}
