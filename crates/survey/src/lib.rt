// Surveys: a plan that is sealed together with a store takes entries and gives sheets.
#![tactic(auto)]

mod survey;

pub use survey::Survey;
