// The kind of yes or no.
ghost use Rattle.std.specs.Prelude.{◌≡◌};
ghost use Rattle.verdict.specs.YesNo.{yesno, yesno_laws};

use crate::kind::Kind;
use crate::limit::within;
use reading::Range;

// No is less than yes.
#[derive(Clone, Copy, PartialEq, Eq, PartialOrd, Ord, Debug)]
pub enum YesNo {
    No,
    Yes,
}

impl From<bool> for YesNo {
    ghost use Rattle.verdict.specs.YesNo.{answer};

    ghost from_gives = { λ holds result. result ≡ answer holds };

    fn from(holds: bool) -> YesNo {
        if holds { YesNo::Yes } else { YesNo::No }
    }
}

impl Kind for YesNo {
    ghost ops = { yesno };

    ghost laws = { yesno_laws };

    fn bottom() -> YesNo {
        YesNo::No
    }

    fn top() -> YesNo {
        YesNo::Yes
    }

    fn join(self, other: YesNo) -> YesNo {
        self.max(other)
    }

    fn meet(self, other: YesNo) -> YesNo {
        self.min(other)
    }

    fn not(self) -> YesNo {
        match self {
            YesNo::Yes => YesNo::No,
            YesNo::No => YesNo::Yes,
        }
    }

    fn judge(range: Range, limit: i32) -> YesNo {
        YesNo::from(within(limit) <= range.low())
    }

    fn takes_ranges() -> bool {
        false
    }
}
