//! Places that threads claim, each at most once in a round, with what each was claimed for.
//!
//! Model: `PlacesSide`, `OwnerSide` and `SeatSide` of `specs/Sides.antt`: the table, what its owner knows of the round,
//! and what a seat that it lent has claimed and seen.
//! Invariant: `KeepsRule` of `specs/Keeping.antt` is the rule of the table. No place stands twice in all that was
//! claimed in the round, a claim was made exactly where its place's word says so, and each claim that was seen was
//! made.
#![tactic(auto)]

mod owner;
mod plays;
mod rule;
mod seat;
mod view;
mod word;

pub use owner::{Owner, SEATS_MOST};
pub use rule::{Claims, Ruled};
pub use seat::ClaimSeat;
pub use view::{Claim, OwnerView, SeatView, View};
