//! What a marking was given before it begins: its cells, those given as seen first.
use ephemeron_mark::Marking;
use std::process::Abort;
use std::test::Fail;

/// The marked cells are these, in this order.
fn has_cells(rt: &impl Abort, marking: &Marking, cells: &[u32]) {
    let list = marking.cells();
    assert!(rt; list.len() == cells.len());
    for (place, at) in cells.iter().enumerate() {
        assert_eq!(rt; list.get(place), *at, "at {place}");
    }
}

#[test]
fn seen_cells_stand_before_the_others(rt: HostRuntime) -> Result<(), Fail> {
    let mut marking = Marking::new(rt.alloc(), 64)?;
    marking.give(5);
    marking.give(9);
    marking.give_seen(7);
    has_cells(&rt, &marking, &[7, 9, 5]);
    // What was given stays as it was given.
    marking.give_seen(9);
    marking.give(7);
    has_cells(&rt, &marking, &[7, 9, 5]);
    marking.give_seen(11);
    has_cells(&rt, &marking, &[7, 11, 5, 9]);
    marking.begin();
    has_cells(&rt, &marking, &[]);
    assert!(rt; marking.maps().is_empty());
    Ok(())
}
