//! The colour of a cell.
ghost use Rattle.std.specs.Prelude.{◌≡◌, ◌≤◌};
ghost use Rattle.mark_world.specs.Steps.{black};
ghost use Rattle.shared_table.specs.Colours.{number_of};

/// How far marking has come with a cell of a page.
#[derive(Clone, Copy, Debug, PartialEq, Eq)]
pub enum Colour {
    /// Not reached.
    White,
    /// Reached, with slots to visit.
    Grey,
    /// Done.
    Black,
}

impl Colour {
    /// The colour that a word of the table stands for.
    #[inline(always)]
    pub(crate) fn of(word: u64) -> Colour
        requires { word ≤ black }
        ensures { number_of result ≡ word }
    {
        match word {
            0 => Colour::White,
            1 => Colour::Grey,
            _ => Colour::Black,
        }
    }
}
