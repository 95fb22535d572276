//! The numbers of the faults.

use heap_command::FaultWord::{
    self, BadKey, FieldsFull, ListFull, NotInt, NotList, NotObject, NotWeak, Overflow, Range, Ring,
    ShapesFull, Unbound, WeakFull,
};

/// The faults in the order of their numbers, from one on.
const FAULTS: [FaultWord; 13] = [
    Unbound, NotObject, NotList, NotWeak, NotInt, BadKey, Range, Overflow, FieldsFull, ListFull,
    WeakFull, ShapesFull, Ring,
];

#[test]
fn the_faults_are_numbered_from_one_to_thirteen(rt: HostRuntime) {
    for (before, word) in FAULTS.iter().enumerate() {
        assert_eq!(rt; *word as usize, before + 1);
    }
}
