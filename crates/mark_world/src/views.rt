//! What a seat knows of its own steps: the mutator's view, a helper's view, and the views of all helpers.
ghost use Rattle.std.specs.Prelude.{◌≡◌, ◌<◌, [], ◌∷◌, ◌++◌, length, slice_get, slice_set, None, false};
ghost use Rattle.std.specs.Prelude.{IfOk, OnOk, OnErr};
ghost use Rattle.mark_world.specs.Steps.{lent, returned};

use crate::snap::Snap;
use core_parts::{Items, Note};
use std::alloc::Global;
use std::marker::Model;
use tagged_word::NoMemory;

/// What the mutator's seat knows. Each list is of addresses.
#[derive(Drop)]
pub struct MainView {
    /// The old cells that are published or were.
    pub starts: Items<u32>,
    /// The cells that count as reached, or as made, since the cycle began.
    pub born: Items<u32>,
    /// The cells that the mutator made black itself.
    pub mine: Items<u32>,
    /// The cells that it knows to be covered.
    pub sure: Items<u32>,
    /// The cells that it is to shade.
    pub owed: Items<u32>,
    /// The grey cells that wait with it.
    pub grey: Items<u32>,
    /// What its steps found.
    pub log: Items<Note>,
}

/// What a helper's seat knows.
#[derive(Drop)]
pub struct HelperView {
    /// Whether the seat is lent to a helper.
    pub out: bool,
    /// The cell that it is reading.
    pub snap: Option<Snap>,
    /// The snap that it settled last.
    pub last: Option<Snap>,
    /// The addresses of the cells that it is to shade: the targets of a snap whose cell it made black.
    pub visit: Items<u32>,
    /// The addresses of the grey cells that wait with it.
    pub grey: Items<u32>,
    /// What its steps found.
    pub log: Items<Note>,
}

impl MainView {
    /// The same view in memory of its own.
    pub fn copied(&self, alloc: Global) -> Result<MainView, NoMemory>
        ensures { IfOk result (λ copy. copy ≡ self.now) }
    {
        Ok(MainView {
            starts: self.starts.copied(alloc)?,
            born: self.born.copied(alloc)?,
            mine: self.mine.copied(alloc)?,
            sure: self.sure.copied(alloc)?,
            owed: self.owed.copied(alloc)?,
            grey: self.grey.copied(alloc)?,
            log: self.log.copied(alloc)?,
        })
    }
}

impl HelperView {
    /// The view of a seat that was just lent. It takes no memory.
    pub fn lent(alloc: Global) -> HelperView
        ensures { result ≡ lent }
    {
        HelperView {
            out: true,
            snap: None,
            last: None,
            visit: Items::new(alloc),
            grey: Items::new(alloc),
            log: Items::new(alloc),
        }
    }

    /// The view of a seat that was taken back. It takes no memory.
    pub fn returned(alloc: Global) -> HelperView
        ensures { result ≡ returned }
    {
        HelperView {
            out: false,
            snap: None,
            last: None,
            visit: Items::new(alloc),
            grey: Items::new(alloc),
            log: Items::new(alloc),
        }
    }

    /// The same view in memory of its own.
    pub fn copied(&self, alloc: Global) -> Result<HelperView, NoMemory>
        ensures { IfOk result (λ copy. copy ≡ self.now) }
    {
        Ok(HelperView {
            out: self.out,
            snap: copied_snap(&self.snap, alloc)?,
            last: copied_snap(&self.last, alloc)?,
            visit: self.visit.copied(alloc)?,
            grey: self.grey.copied(alloc)?,
            log: self.log.copied(alloc)?,
        })
    }
}

/// The same snap, if there is one, in memory of its own.
fn copied_snap(snap: &Option<Snap>, alloc: Global) -> Result<Option<Snap>, NoMemory>
    ensures { IfOk result (λ copy. copy ≡ snap.now) }
{
    match snap {
        Some(snap) => Ok(Some(snap.copied(alloc)?)),
        None => Ok(None),
    }
}

/// The views of all helpers, by their numbers.
#[derive(Drop)]
pub struct Views {
    list: Vec<HelperView>,
}

impl Model for Views {
    ghost use Rattle.std.specs.Prelude.{List};
    ghost use Rattle.mark_world.specs.declared.views.HelperView.{HelperView};

    ghost Value = { List HelperView };

    ghost view = { λ views. views.list.items };
}

impl Views {
    /// No views. It takes no memory.
    pub fn new(alloc: Global) -> Views
        ensures { result ≡ [] }
    {
        Views {
            list: Vec::new(alloc),
        }
    }

    /// The views in order.
    pub fn as_slice(&self) -> &[HelperView]
        ensures { result.now ≡ self.now }
    {
        self.list.as_slice()
    }

    /// How many views there are.
    pub fn count(&self) -> usize
        ensures { result ≡ length self.now }
    {
        self.list.len()
    }

    /// Puts a view in the place of that of a number, which is handed out.
    pub fn replace(&mut self, i: usize, view: HelperView) -> HelperView
        requires { i < length self.old }
        ensures view { slice_get self.old i ≡ Some result }
        ensures views { self.new ≡ slice_set self.old i view }
    {
        std::mem::replace(&mut self.list[i], view)
    }

    /// Puts a view in the place of that of a number.
    pub fn set(&mut self, i: usize, view: HelperView)
        requires { i < length self.old }
        ensures { self.new ≡ slice_set self.old i view }
    {
        self.list[i] = view;
    }

    /// Puts a view behind the last one. Without memory the views stay as they were.
    pub fn push(&mut self, view: HelperView) -> Result<(), NoMemory>
        ensures ok { OnOk result (self.new ≡ self.old ++ view ∷ []) }
        ensures err { OnErr result (self.new ≡ self.old) }
    {
        self.list.push(view)?;
        Ok(())
    }

    /// The same views in memory of their own.
    pub fn copied(&self, alloc: Global) -> Result<Views, NoMemory>
        ensures { IfOk result (λ copy. copy ≡ self.now) }
    {
        let mut copy = Vec::new(alloc);
        for view in self.list.as_slice() {
            copy.push(view.copied(alloc)?)?;
        }
        Ok(Views { list: copy })
    }
}
