// Margins: their ends are an invariant of the type.
ghost use Rattle.std.specs.Prelude.{pos, negsuc, ◌≡◌, ◌≤ℤ◌};

use crate::kind::Kind;
use crate::limit::within;
use reading::Range;

const WORST: i32 = -2_000_001;

const BEST: i32 = 2_000_001;

// How far a reading lies above a limit, from -2,000,001 to 2,000,001.
#[derive(Clone, Copy, PartialEq, Eq, PartialOrd, Ord, Debug)]
pub struct Margin {
    value: i32,
    ghost floor: { negsuc 2000000 ≤ℤ value },
    ghost ceiling: { value ≤ℤ pos 2000001 },
}

impl Margin {
    ghost use Rattle.verdict.specs.Margins.{margin};

    // The margin of this value, or the nearer end where it lies beyond.
    pub fn new(value: i32) -> Margin
        ensures { result ≡ margin value }
    {
        Margin {
            value: value.clamp(WORST, BEST),
        }
    }

    pub fn value(self) -> i32
        ensures { result ≡ self.value }
    {
        self.value
    }
}

impl Kind for Margin {
    ghost use Rattle.verdict.specs.Margins.{margins, margin_laws};

    ghost ops = { margins };

    ghost laws = { margin_laws };

    fn bottom() -> Margin {
        Margin::new(WORST)
    }

    fn top() -> Margin {
        Margin::new(BEST)
    }

    fn join(self, other: Margin) -> Margin {
        self.max(other)
    }

    fn meet(self, other: Margin) -> Margin {
        self.min(other)
    }

    fn not(self) -> Margin {
        Margin::new(-self.value)
    }

    fn judge(range: Range, limit: i32) -> Margin {
        Margin::new(range.low() - within(limit))
    }

    fn takes_ranges() -> bool {
        false
    }
}
