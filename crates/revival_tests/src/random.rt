//! Numbers that look random and are the same in each run.
ghost use Rattle.std.specs.Prelude.{◌≤◌};

/// A generator by multiplication.
#[derive(Clone, Copy)]
pub(crate) struct Random {
    state: u32,
}

impl Random {
    pub(crate) fn new(seed: u32) -> Random {
        Random { state: seed }
    }

    /// Any word.
    pub(crate) fn word(&mut self) -> u32 {
        self.state = self
            .state
            .wrapping_mul(0x0019_660d)
            .wrapping_add(0x3c6e_f35f);
        let mixed = (self.state ^ self.state.rotate_left(15)).wrapping_mul(0x2c1b_3c6d);
        mixed ^ mixed.rotate_left(17)
    }

    /// A number below a limit, 0 where that is 0.
    pub(crate) fn below(&mut self, limit: u32) -> u32
        ensures { result ≤ limit }
    {
        if limit == 0 {
            return 0;
        }
        self.word() % limit
    }

    /// A number as fields of records have it, or one that is near the end of their ranges, or any word.
    pub(crate) fn field(&mut self) -> u32 {
        let edges = [
            0, 1, 2, 3, 4, 15, 16, 23, 24, 31, 32, 33, 47, 48, 63, 64, 65, 79, 80, 255, 256, 257,
            258,
        ];
        match self.below(8) {
            0 => self.word(),
            1 => u32::MAX,
            2 => 0,
            _ => {
                let place = self.below(23) as usize;
                edges.get(place).copied().unwrap_or(0)
            }
        }
    }
}
