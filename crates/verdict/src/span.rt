// The span of a kind.
ghost use Rattle.verdict.specs.Spans.{span_ops, span_laws};

use crate::kind::Kind;
use reading::Range;

// A low and a high verdict of one kind.
#[derive(Clone, Copy, PartialEq, Eq, Debug)]
pub struct Span<K> {
    pub low: K,
    pub high: K,
}

impl<K: Kind> Kind for Span<K> {
    ghost ops = { span_ops K.Kind.ops };

    ghost laws = { span_laws K.Kind.laws };

    fn bottom() -> Span<K> {
        Span {
            low: K::bottom(),
            high: K::bottom(),
        }
    }

    fn top() -> Span<K> {
        Span {
            low: K::top(),
            high: K::top(),
        }
    }

    fn join(self, other: Span<K>) -> Span<K> {
        Span {
            low: self.low.join(other.low),
            high: self.high.join(other.high),
        }
    }

    fn meet(self, other: Span<K>) -> Span<K> {
        Span {
            low: self.low.meet(other.low),
            high: self.high.meet(other.high),
        }
    }

    // The ends change places.
    fn not(self) -> Span<K> {
        Span {
            low: self.high.not(),
            high: self.low.not(),
        }
    }

    // Each end is judged as an exact reading.
    fn judge(range: Range, limit: i32) -> Span<K> {
        Span {
            low: K::judge(range.floor(), limit),
            high: K::judge(range.ceiling(), limit),
        }
    }

    fn takes_ranges() -> bool {
        true
    }
}
