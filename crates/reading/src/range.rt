// Ranges: their limits are an invariant of the type.
ghost use Rattle.std.specs.Prelude.{pos, negsuc, ◌≡◌, ◌≤ℤ◌};
ghost use Rattle.std.specs.Option.{option_map};

// The limits of every reading.
pub const LOWEST: i32 = -1_000_000;

pub const HIGHEST: i32 = 1_000_000;

// What is known of one level: it lies from `low` to `high`, both counted.
#[derive(Clone, Copy, PartialEq, Eq, Debug)]
pub struct Range {
    low: i32,
    high: i32,
    ghost floor: { negsuc 999999 ≤ℤ low },
    ghost order: { low ≤ℤ high },
    ghost ceiling: { high ≤ℤ pos 1000000 },
}

impl Range {
    ghost use Rattle.reading.specs.Ends.{ends, made_of, inside, is_widest, is_exact, widest, exactly};

    // The range with these ends, or none where they make no range.
    pub fn new(low: i32, high: i32) -> Option<Range>
        ensures { option_map ends result ≡ made_of low high }
    {
        if low > high || low < LOWEST || high > HIGHEST {
            return None;
        }
        Some(Range { low, high })
    }

    // The range of a level of which nothing is known.
    pub fn widest() -> Range
        ensures { ends result ≡ widest }
    {
        Range {
            low: LOWEST,
            high: HIGHEST,
        }
    }

    pub fn low(self) -> i32
        ensures { result ≡ (ends self).low }
    {
        self.low
    }

    pub fn high(self) -> i32
        ensures { result ≡ (ends self).high }
    {
        self.high
    }

    // The low end as an exact reading.
    pub fn floor(self) -> Range
        ensures { ends result ≡ exactly (ends self).low }
    {
        Range {
            low: self.low,
            high: self.low,
        }
    }

    // The high end as an exact reading.
    pub fn ceiling(self) -> Range
        ensures { ends result ≡ exactly (ends self).high }
    {
        Range {
            low: self.high,
            high: self.high,
        }
    }

    // Whether this range lies inside the other; equality counts.
    pub fn lies_inside(self, other: Range) -> bool
        ensures { result ≡ inside (ends self) (ends other) }
    {
        other.low <= self.low && self.high <= other.high
    }

    pub fn is_widest(self) -> bool
        ensures { result ≡ is_widest (ends self) }
    {
        self == Range::widest()
    }

    pub fn is_exact(self) -> bool
        ensures { result ≡ is_exact (ends self) }
    {
        self.low == self.high
    }
}
