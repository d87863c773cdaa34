// Random numbers that are the same for the same seed.
ghost use Rattle.std.specs.Prelude.{◌<◌};

#[derive(Drop)]
pub(crate) struct Random {
    state: u64,
}

impl Random {
    pub(crate) fn new(seed: u64) -> Random {
        Random {
            state: seed.wrapping_mul(0x9e37_79b9_7f4a_7c15) | 1,
        }
    }

    fn next(&mut self) -> u64 {
        let mut x = self.state;
        x ^= x >> 12;
        x ^= x << 25;
        x ^= x >> 27;
        self.state = x;
        x.wrapping_mul(0x2545_f491_4f6c_dd1d) >> 33
    }

    // A number from 0 to below the bound; 0 where there is none.
    pub(crate) fn below(&mut self, bound: u32) -> u32 {
        let next = self.next();
        if bound == 0 {
            return 0;
        }
        (next % bound as u64) as u32
    }

    // True once in so many times.
    pub(crate) fn one_in(&mut self, times: u32) -> bool {
        self.below(times) == 0
    }

    // One of the values given.
    pub(crate) fn of<T: Copy, const N: usize>(&mut self, values: &[T; N]) -> T
        requires { 0 < N }
    {
        values[(self.next() % N as u64) as usize]
    }
}
