//! Threads: tasks that run next to the caller's own work, and the points that threads pass, so that a test may hold
//! them there.
//!
//! Model: none. A `Task` says what it needs and what it does, and `beside` says that each was run once. No clause says
//! that two run at the same time, nor what a gate does.
#![tactic(auto)]

mod tasks;

pub use tasks::{Task, beside};

/// Where a thread stands when it passes a gate.
#[derive(Clone, Copy, Debug, PartialEq, Eq)]
pub enum Point {
    /// A helper has loaded the slots of a cell.
    HelperLoaded,
    /// A helper has exchanged the colour of a cell.
    HelperExchanged,
    /// A worker has copied a cell.
    WorkerLoaded,
    /// A worker has exchanged the header of a cell.
    WorkerExchanged,
    /// A command was carried out while a cycle is open.
    CommandDone,
}

/// What threads pass at named points. Tests hold threads here; the program never does. The trait does not ask for
/// `Sync`: what is passed by threads is shared by `beside`, which does, and a task of any gate could not be proved.
pub trait Gate {
    /// Is called by a thread that stands at this point, and goes on when it returns.
    fn pass(&self, point: Point);
}

/// A gate that holds nobody.
#[derive(Clone, Copy, Debug)]
pub struct OpenGate;

impl Gate for OpenGate {
    fn pass(&self, _point: Point) {}
}
