// Cases of the meanings that readers ask about, on the contract of a function that does nothing.
#![tactic(auto)]

ghost use Rattle.cases.specs.Cases.{Cases};

use verdict::Kind;

// The cases hold, for every verdict kind.
pub fn cases_hold<K: Kind>()
    ensures { Cases K.Kind.ops }
{}
