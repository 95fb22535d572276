//! The numbers that are drawn, and what is kept between two forms.
ghost use Rattle.std.specs.Prelude.{◌≡◌, ◌<◌};
ghost use Rattle.script_gen.specs.Draws.{next, drawn};

/// How many lists a script has.
pub(crate) const LISTS: usize = 4;

/// What is kept between two forms.
#[derive(Clone, Copy)]
pub struct Kept {
    /// The state that the next number is drawn from.
    pub state: u64,
    /// The length of each list, as far as the script goes.
    pub lengths: [u32; LISTS],
}

impl Kept {
    /// Draws a number below `below`. The low bits of the state are left out: they come round soon.
    pub(crate) fn draw(&mut self, below: u32) -> u32
        requires { 0 < below }
        ensures kept { self.new ≡ record self.old { state = next self.old.state } }
        ensures number { result ≡ drawn below (next self.old.state) }
        ensures in_range { result < below }
    {
        self.state = self
            .state
            .wrapping_mul(6_364_136_223_846_793_005)
            .wrapping_add(1_442_695_040_888_963_407);
        (self.state >> 33) as u32 % below
    }
}
