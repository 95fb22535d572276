//! The gate of the program, through the bound that its callers have.

use crew::{Gate, OpenGate, Point};

fn pass_all<G: Gate>(gate: &G) {
    for point in [
        Point::HelperLoaded,
        Point::HelperExchanged,
        Point::WorkerLoaded,
        Point::WorkerExchanged,
        Point::CommandDone,
    ] {
        gate.pass(point);
    }
}

#[test]
fn an_open_gate_holds_nobody() {
    pass_all(&OpenGate);
}
