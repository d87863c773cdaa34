// How a limit is read.
ghost use Rattle.std.specs.Prelude.{◌≡◌};
ghost use Rattle.verdict.specs.Algebra.{nearest};

use reading::{HIGHEST, LOWEST};

// The limit, or the nearer bound where it lies beyond.
pub(crate) fn within(limit: i32) -> i32
    ensures { result ≡ nearest limit }
{
    limit.clamp(LOWEST, HIGHEST)
}
