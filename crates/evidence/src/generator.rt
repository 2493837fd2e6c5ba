// Numbers that are drawn, the same in each run.
ghost use Rattle.std.specs.Prelude.{◌<◌};

// A multiplicative generator modulo 2^31 - 1.
#[derive(Clone, Copy)]
pub struct Generator {
    pub state: u64,
}

impl Generator {
    pub fn new(seed: u64) -> Generator {
        Generator { state: seed }
    }

    pub fn draw(&mut self) -> u64
        ensures { result < 2_147_483_647 }
    {
        self.state = self.state % 2_147_483_647 * 48_271 % 2_147_483_647;
        self.state
    }

    // Two draws, the first 2^31 times as heavy.
    fn wide(&mut self) -> u64 {
        self.draw() * 2_147_483_648 + self.draw()
    }

    pub fn under(&mut self, limit: u64) -> u64
        requires { 0 < limit }
        ensures { result < limit }
    {
        self.wide() % limit
    }
}
