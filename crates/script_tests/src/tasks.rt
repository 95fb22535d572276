//! Tasks next to a closure.
use crew::{Task, beside};
use std::test::Fail;

/// Adds the context to a sum as often as it says.
#[derive(Clone, Copy)]
struct Adder {
    sum: u64,
    times: u32,
}

impl Task<u64> for Adder {
    ghost ready = { λ _ _. Unit {0} };

    ghost done = { λ _ _ _. Unit {0} };

    fn run(&mut self, context: &u64) {
        for _time in 0..self.times {
            self.sum = self.sum.wrapping_add(*context);
        }
    }
}

#[test]
fn each_task_runs_once_next_to_the_closure(rt: HostRuntime) -> Result<(), Fail> {
    let mut called = 0u32;
    for count in 0..4usize {
        let mut tasks = [1, 1_000, 100_000].map(|times| Adder { sum: 7, times });
        beside(
            &rt,
            &mut || called = called.wrapping_add(1),
            &mut tasks[..count],
            &3,
        );
        for (at, task) in tasks.iter().enumerate() {
            let added = if at < count { 3 * task.times as u64 } else { 0 };
            assert_eq!(rt; task.sum, 7 + added, "task {at} of {count}");
        }
    }
    assert_eq!(rt; called, 4);
    Ok(())
}
