// Verdicts as plain numbers: a no is 0 and a yes 1, and a margin is itself. Join is the greater, meet the smaller.
use command::SheetKind;
use std::alloc::AllocError;

#[derive(Clone, Copy, PartialEq, Eq, Debug)]
pub(crate) enum Scale {
    YesNo,
    Margin,
}

// A low and a high verdict, or the ends of a range. Where all readings are exact the two are equal.
#[derive(Clone, Copy, PartialEq, Eq, Debug, Default)]
pub(crate) struct Pair {
    pub(crate) low: i32,
    pub(crate) high: i32,
}

// Whether a kind of sheet shows both ends.
pub(crate) fn shows_spans(kind: SheetKind) -> bool {
    matches!(kind, SheetKind::YesNoSpan | SheetKind::MarginSpan)
}

impl From<SheetKind> for Scale {
    fn from(kind: SheetKind) -> Scale {
        match kind {
            SheetKind::YesNo | SheetKind::YesNoSpan => Scale::YesNo,
            SheetKind::Margin | SheetKind::MarginSpan => Scale::Margin,
        }
    }
}

impl Scale {
    pub(crate) fn bottom(self) -> i32 {
        match self {
            Scale::YesNo => 0,
            Scale::Margin => -2_000_001,
        }
    }

    pub(crate) fn top(self) -> i32 {
        match self {
            Scale::YesNo => 1,
            Scale::Margin => 2_000_001,
        }
    }

    pub(crate) fn judge(self, reading: i32, limit: i32) -> i32 {
        match self {
            Scale::YesNo => i32::from(reading >= limit),
            Scale::Margin => reading.saturating_sub(limit),
        }
    }

    pub(crate) fn opposite(self, verdict: i32) -> i32 {
        match self {
            Scale::YesNo => 1i32.saturating_sub(verdict),
            Scale::Margin => 0i32.saturating_sub(verdict),
        }
    }

    // Writes a verdict as a sheet shows it.
    pub(crate) fn write(self, verdict: i32, out: &mut String) -> Result<(), AllocError> {
        match self {
            Scale::YesNo => out.push_str(if verdict == 1 { "y" } else { "n" }),
            Scale::Margin => write!(out, "{verdict}"),
        }
    }
}

impl Pair {
    pub(crate) fn level(verdict: i32) -> Pair {
        Pair {
            low: verdict,
            high: verdict,
        }
    }

    pub(crate) fn join(self, other: Pair) -> Pair {
        Pair {
            low: self.low.max(other.low),
            high: self.high.max(other.high),
        }
    }

    pub(crate) fn meet(self, other: Pair) -> Pair {
        Pair {
            low: self.low.min(other.low),
            high: self.high.min(other.high),
        }
    }
}
