// Cases of the meanings, each a theorem on the contract of a function that does nothing.
ghost use Rattle.monitor.specs.Cases.{BottomAtTheEnd};

use network::Measure;
use verdict::Kind;

// Until from 1 to 2 at the last step is bottom.
pub fn until_is_bottom_at_the_end<K: Kind, M: Measure>()
    ensures { BottomAtTheEnd K.Kind.ops M.Measure.extend }
{}
