//! Where what stood at addresses stands after a move.
ghost use Rattle.std.specs.Prelude.{◌≡◌};
ghost use Rattle.slow_check.specs.Moves.{to_of};

/// That what stood at an address stands at another.
#[derive(Clone, Copy)]
pub struct Move {
    /// The address at which it stood.
    pub from: u32,
    /// The address at which it stands afterwards.
    pub to: u32,
}

/// Where what stood at an address stands after these moves. The first of them from there tells.
pub(crate) fn place_after(moves: &[Move], at: u64) -> Option<u32>
    ensures { result ≡ to_of moves.now at }
{
    for one in moves {
        if one.from as u64 == at {
            return Some(one.to);
        }
    }
    None
}
