//! How a number is looked up in a table, and how one is taken out: slow and plain.
ghost use Rattle.std.specs.Prelude.{◌≡◌, ◌+◌, ◌<◌, ◌^◌, length, MatchOption};
ghost use Rattle.linear_probing.specs.Tables.{place_after, steps_to, FindsAll};
ghost use Rattle.linear_probing.specs.Outcomes.{IsEnd, HasNoEnd, Removes};

/// The place that so many steps lead to from the home of a number, or from a place.
fn place(capacity: usize, number: usize, steps: usize) -> usize
    requires some { 0 < capacity }
    requires fits { number + steps < 2 ^ 64 }
    ensures { result ≡ place_after capacity number steps }
{
    (number + steps) % capacity
}

/// How many steps probing for a number takes to a place.
fn steps(capacity: usize, number: usize, at: usize) -> usize
    requires some { 0 < capacity }
    requires fits { at + capacity < 2 ^ 64 }
    ensures { result ≡ steps_to capacity number at }
{
    (at + (capacity - number % capacity)) % capacity
}

/// The place where probing for a number ends: the first on its way that is free, or holds the number.
/// Where no place is free and none holds it, there is none.
pub fn find_place(table: &[Option<u32>], number: u32) -> Option<usize>
    ensures { MatchOption result (HasNoEnd table.now number) (λ at. IsEnd table.now number at) }
{
    for step in 0..table.len() {
        let at = place(table.len(), number as usize, step);
        match table[at] {
            None => return Some(at),
            Some(held) => {
                if held == number {
                    return Some(at);
                }
            }
        }
    }
    None
}

/// Takes out what stands at a place. Those behind it that probing would no longer find move back,
/// so that a table where each number is found stays one.
pub fn remove(table: &mut [Option<u32>], at: usize)
    requires within { at < length table.old }
    ensures found { FindsAll table.old → FindsAll table.new }
    ensures taken { Removes table.old table.new at }
{
    let capacity = table.len();
    let mut hole = at;
    let mut passed = 0;
    while passed + 1 < capacity {
        let next = place(capacity, hole, passed + 1);
        let Some(number) = table[next] else {
            table[hole] = None;
            return;
        };
        if steps(capacity, number as usize, next) <= passed {
            passed += 1;
        } else {
            table[hole] = Some(number);
            hole = next;
            passed = 0;
        }
    }
    table[hole] = None;
}
