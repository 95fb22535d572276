//! The cells of pages that variables refer to are shaded as a cycle opens.
ghost use Rattle.std.specs.Prelude.{◌≡◌, ◌<◌, ℕ, Contains};
ghost use Rattle.page_space.specs.Extents.{eden_start};
ghost use Rattle.handle_roots.specs.Roots.{IsRoot};
ghost use Rattle.heap_table.specs.Phases.{Mark};
ghost use Rattle.write_barrier.specs.Seats.{heap_words};
ghost use Rattle.cycle_opening.specs.Opened.{GrowsSure, HasSureRoots, RefersToPage};

use write_barrier::Main;

/// Shades the cell of a page to which a variable refers, if it refers to one.
fn shade_root(main: &mut Main, variable: u32)
    requires mark { main.old.seat.phase ≡ Mark }
    requires known { variable < main.old.seat.space.variables }
    requires root { IsRoot main.old.seat.space (heap_words main.old.seat) variable }
    requires born { (at : ℕ) → RefersToPage main.old variable at → Contains main.old.cycle.born at }
    ensures grows { GrowsSure main.old main.new }
    ensures shaded { (at : ℕ) → RefersToPage main.old variable at → Contains main.new.cycle.sure at }
{
    if let Some(at) = main.referred(variable) {
        if main.regions().is_page(at) {
            main.shade(at);
        }
    }
}

/// Shades each cell of a page to which a variable refers.
pub(crate) fn shade_roots(main: &mut Main)
    requires mark { main.old.seat.phase ≡ Mark }
    requires roots { (variable : ℕ) → variable < main.old.seat.space.variables →
        IsRoot main.old.seat.space (heap_words main.old.seat) variable }
    requires born { (variable at : ℕ) → variable < main.old.seat.space.variables → RefersToPage main.old variable at →
        Contains main.old.cycle.born at }
    ensures grows { GrowsSure main.old main.new }
    ensures shaded { HasSureRoots main.new }
{
    for variable in 0..main.regions().variables() {
        shade_root(main, variable);
    }
}
