//! What each worker knows and has to do.
ghost use Rattle.std.specs.Prelude.{◌≡◌, ◌<◌, [], ◌∷◌, ◌++◌, length, slice_get, slice_set, Some};
ghost use Rattle.std.specs.Prelude.{OnOk};
ghost use Rattle.scav_core.specs.Worlds.{lent_view, out_count};
ghost use Rattle.scav_core.specs.Views.{view_after};

use crate::event::Event;
use crate::view::change_view;
use core_parts::{Items, Note};
use std::alloc::Global;
use std::marker::Model;
use tagged_word::NoMemory;

/// A slot that a worker is at, and what it read of the cell that the slot refers to.
#[derive(Drop)]
pub struct Job {
    /// The slot that was read.
    pub slot: u32,
    /// The cell that it refers to.
    pub cell: u32,
    /// The header of the cell, once it is read; after the exchange, the word that then stands.
    pub header: Option<u64>,
    /// The words behind the header, as far as they are read.
    pub body: Items<u64>,
}

/// What a worker knows, and what it has to do.
#[derive(Drop)]
pub struct WorkerView {
    /// Whether the worker is at work.
    pub out: bool,
    /// The slot that it is at.
    pub job: Option<Job>,
    /// The copies whose slots it has to do.
    pub todo: Items<u32>,
    /// What its steps found.
    pub log: Items<Note>,
}

/// The views of all workers, which contracts see as a list. The number of a worker is its place.
#[derive(Drop)]
pub struct Workers {
    list: Vec<WorkerView>,
}

impl Model for Workers {
    ghost use Rattle.std.specs.Prelude.{List};
    ghost use Rattle.scav_core.specs.declared.workers.WorkerView.{WorkerView};

    ghost Value = { List WorkerView };

    ghost view = { λ workers. workers.list.items };
}

impl WorkerView {
    /// The view of a worker that begins. It takes no memory.
    pub fn lent(alloc: Global) -> WorkerView
        ensures { result ≡ lent_view }
    {
        WorkerView {
            out: true,
            job: None,
            todo: Items::new(alloc),
            log: Items::new(alloc),
        }
    }
}

impl Workers {
    /// No workers. It takes no memory.
    pub fn new(alloc: Global) -> Workers
        ensures { result ≡ [] }
    {
        Workers {
            list: Vec::new(alloc),
        }
    }

    /// The views of a `Vec`. It takes no memory.
    pub fn from_vec(list: Vec<WorkerView>) -> Workers
        ensures { result ≡ list.items }
    {
        Workers { list }
    }

    /// The views in order.
    pub fn as_slice(&self) -> &[WorkerView]
        ensures { result.now ≡ self.now }
    {
        self.list.as_slice()
    }

    /// How many workers there are.
    pub fn count(&self) -> usize
        ensures { result ≡ length self.now }
    {
        self.list.len()
    }

    /// The view of the worker of a number.
    pub fn view(&self, worker: usize) -> &WorkerView
        requires { worker < length self.now }
        ensures { slice_get self.now worker ≡ Some result.now }
    {
        &self.list[worker]
    }

    /// How many workers are at work.
    pub fn count_out(&self) -> usize
        ensures { result ≡ out_count self.now }
    {
        self.list.iter().filter(|view| view.out).count()
    }

    /// One more worker begins.
    pub(crate) fn lend(&mut self, alloc: Global) -> Result<(), NoMemory>
        ensures { OnOk result (self.new ≡ self.old ++ lent_view ∷ []) }
    {
        self.list.push(WorkerView::lent(alloc))?;
        Ok(())
    }

    /// The view of a worker changes by an event that found a word.
    pub(crate) fn change(
        &mut self,
        alloc: Global,
        worker: usize,
        cells: &[u32],
        event: Event,
        found: u64,
    ) -> Result<(), NoMemory>
        requires { worker < length self.old }
        ensures { (view : WorkerView) → slice_get self.old worker ≡ Some view →
            OnOk result (self.new ≡ slice_set self.old worker (view_after cells.now view event found)) }
    {
        change_view(alloc, &mut self.list[worker], cells, event, found)
    }
}
