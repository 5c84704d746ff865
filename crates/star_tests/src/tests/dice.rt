//! Numbers that look random, and are the same in each run.
ghost use Rattle.std.specs.Prelude.{◌<◌};

// A linear congruence: each number is made of the one before.
#[derive(Drop)]
pub struct Dice {
    state: u32,
}

impl Dice {
    pub fn new(seed: u32) -> Dice {
        Dice { state: seed }
    }

    // A number below `n`, of the upper half of the state, as the lower one repeats soon.
    pub fn below(&mut self, n: u32) -> u32
        requires { 0 < n }
        ensures { result < n }
    {
        self.state = self
            .state
            .wrapping_mul(1_664_525)
            .wrapping_add(1_013_904_223);
        self.state / 65_536 % n
    }
}
