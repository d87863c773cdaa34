// What a kind of verdicts can do, and the laws that it keeps.
ghost use Rattle.std.specs.Prelude.{◌≡◌};
ghost use Rattle.reading.specs.Ends.{ends};
ghost use Rattle.verdict.specs.Algebra.{Ops, Laws};

use reading::Range;

pub trait Kind: Copy {
    ghost ops: { Ops Self };

    ghost laws: { Laws ops };

    fn bottom() -> Self
        ensures { result ≡ ops.bottom };

    fn top() -> Self
        ensures { result ≡ ops.top };

    fn join(self, other: Self) -> Self
        ensures { result ≡ ops.join self other };

    fn meet(self, other: Self) -> Self
        ensures { result ≡ ops.meet self other };

    fn not(self) -> Self
        ensures { result ≡ ops.neg self };

    // The verdict on a range at a limit.
    fn judge(range: Range, limit: i32) -> Self
        ensures { result ≡ ops.judge (ends range).low (ends range).high limit };

    // Whether the kind takes ranges, or exact readings only.
    fn takes_ranges() -> bool
        ensures { result ≡ ops.ranged };
}
