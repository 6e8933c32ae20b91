ghost use Rattle.std.specs.Prelude.{◌≡◌, ◌<◌, ◌≤◌, ◌^◌, ◌/◌, ◌%◌};
ghost use Rattle.drill_text.specs.Draws.{after, drawn};

const FACTOR: u64 = 1_664_525;

const SUMMAND: u64 = 1_013_904_223;

/// Numbers drawn one after the other from a seed, by a linear congruence modulo 2^32.
#[derive(Drop)]
pub(crate) struct Draws {
    pub(crate) state: u32,
}

impl Draws {
    /// The next number below `bound`.
    pub(crate) fn draw(&mut self, bound: u32) -> u32
        requires { 1 ≤ bound }
        ensures state { self.new.state ≡ after self.old.state }
        ensures drawn { result ≡ drawn self.old.state bound }
        ensures below { result < bound }
    {
        self.state = ((FACTOR * u64::from(self.state) + SUMMAND) % (1 << 32)) as u32;
        (self.state >> 16) % bound
    }
}
