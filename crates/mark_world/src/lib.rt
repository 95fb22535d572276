//! The world of marking: the words of a heap's table at one moment of an open cycle, what the
//! mutator and its helpers know, and the events that change it, as pure data with no program.
//!
//! Model: a `World` is the table's words with a view for each seat; an `Event` is one step of one
//! seat. `specs/Steps.antt` says what an event does, by four functions of what its seat knows and of
//! the one word that it touches; `specs/Conditions.antt` where it is possible; `specs/AfterEvents.antt`
//! makes the world after it of these alone. `Sound` of `specs/Soundness.antt` is the tri-colour
//! invariant, `Born` of `specs/BornCells.antt` bounds what marking may reach, `specs/BetweenCommands.antt` says
//! what holds between two commands, and `OneLayout` of `specs/OneLayouts.antt` speaks of whole runs.
//! Invariant: none of its own. A world may be any.
#![tactic(auto)]

mod event;
mod laid;
mod sizing;
mod snap;
mod step;
mod targets;
mod views;
mod world;

pub use event::Event;
pub use laid::Laid;
pub use sizing::{known_size, page_end};
pub use snap::{Snap, SnapSlot};
pub use step::{Actor, Spot};
pub use targets::target;
pub use views::{HelperView, MainView, Views};
pub use world::World;
