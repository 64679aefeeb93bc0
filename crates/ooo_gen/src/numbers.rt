ghost use Rattle.std.specs.Prelude.{◌≡◌};
ghost use Rattle.ooo_gen.specs.Numbers.{number_of, following};

const MULTIPLIER: u64 = 1_103_515_245;

const INCREMENT: u64 = 12_345;

const MODULUS: u64 = 1 << 31;

/// The random numbers of a seed, one after another, as a linear congruential sequence.
#[derive(Drop)]
pub(crate) struct Numbers {
    last: u32,
}

impl Numbers {
    /// The sequence of a seed, before its first number.
    pub(crate) fn new(seed: u32) -> Numbers
        ensures { result.last ≡ number_of seed 0 }
    {
        Numbers {
            last: (u64::from(seed) % MODULUS) as u32,
        }
    }

    /// The next number.
    pub(crate) fn draw(&mut self) -> u32
        ensures next { result ≡ following self.old.last }
        ensures last { self.new.last ≡ result }
    {
        self.last = ((u64::from(self.last) * MULTIPLIER + INCREMENT) % MODULUS) as u32;
        self.last
    }
}
