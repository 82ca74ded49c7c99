// Numbers that are drawn one after another.
ghost use Rattle.std.specs.Prelude.{◌≡◌, ◌/◌, ◌%◌, ◌<◌};
ghost use Rattle.app_generator.specs.Drawn.{next, draw};

/// A linear congruential generator.
#[derive(Clone, Copy)]
pub struct Draws {
    pub state: u32,
}

impl Draws {
    // Goes on to the next state.
    fn step(&mut self)
        ensures { self.new.state ≡ next self.old.state }
    {
        let state = (1_664_525 * self.state as u64 + 1_013_904_223) % 4_294_967_296;
        self.state = state as u32;
    }

    /// The next number below `range`.
    pub fn draw(&mut self, range: u32) -> u32
        requires { 0 < range }
        ensures state { self.new.state ≡ next self.old.state }
        ensures value { result ≡ draw self.old.state 0 range }
    {
        self.step();
        self.state / 65_536 % range
    }
}
