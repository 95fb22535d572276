//! What seats know of a round. No value of a view or a claim is made: views are those of seats, which have no bytes.
use std::collections::LinkedList;

/// A place that was claimed, and for what.
pub struct Claim {
    pub place: u32,
    pub value: u32,
}

/// What a seat knows that was lent.
pub struct SeatView {
    /// The round in which it was lent.
    pub round: u32,
    /// How the words stood when the round began.
    pub start: LinkedList<u64>,
    /// What it claimed, in order.
    pub made: LinkedList<Claim>,
    /// The claims that it saw, its own among them.
    pub seen: LinkedList<Claim>,
}

/// What the owner knows.
pub struct OwnerView {
    /// The round.
    pub round: u32,
    /// How many seats are out.
    pub out: u32,
    /// How the words stood when the round began.
    pub start: LinkedList<u64>,
    /// What each seat claimed that was taken back in this round.
    pub made: LinkedList<LinkedList<Claim>>,
    /// The claims that these saw.
    pub seen: LinkedList<Claim>,
}

/// The view of a seat.
pub enum View {
    /// That of the owner.
    Owning(OwnerView),
    /// That of a seat that was lent.
    Lent(SeatView),
    /// That of a seat that was taken back.
    Gone,
}
