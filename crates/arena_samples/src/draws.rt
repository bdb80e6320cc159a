// Numbers that are drawn one after another: a linear congruential generator.
ghost use Rattle.std.specs.Prelude.{◌≡◌, ◌/◌};
ghost use Rattle.arena_samples.specs.Draws.{half, next_state};

/// What the upper half of a state's 32 bits is worth.
const HALF: u32 = 65_536;

#[derive(Drop)]
pub struct Draws {
    pub state: u32,
}

impl Draws {
    /// The next number: the upper half of the next state.
    pub fn draw(&mut self) -> u32
        ensures state { self.new.state ≡ next_state self.old.state }
        ensures drawn { result ≡ self.new.state / half }
    {
        let next = (1_664_525 * u64::from(self.state) + 1_013_904_223) % (1 << 32);
        self.state = next as u32;
        self.state / HALF
    }
}
