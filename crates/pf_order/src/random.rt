//! Random numbers, the same in every run.

// Where they begin.
const SEED: u64 = 88_172_645_463_325_252;

/// A xorshift generator.
#[derive(Clone, Copy, Debug, PartialEq, Eq)]
pub struct Random {
    state: u64,
}

impl Random {
    /// The generator at its beginning.
    pub fn new() -> Random {
        Random { state: SEED }
    }

    // The next number.
    fn next(&mut self) -> u64 {
        let x = self.state ^ self.state.wrapping_mul(8_192);
        let x = x ^ (x / 128);
        let x = x ^ x.wrapping_mul(131_072);
        self.state = x;
        x
    }

    /// A number below `n`, and 0 where there is none.
    pub fn below(&mut self, n: u32) -> u32 {
        let x = self.next();
        if n == 0 {
            return 0;
        }
        (x % (n as u64)) as u32
    }

    /// One of two sides.
    pub fn coin(&mut self) -> bool {
        self.next() % 2 == 1
    }
}
