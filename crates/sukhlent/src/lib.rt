// The public calls as C sees them, by family. Each passes its arguments on to the proved call that has the same contract.
#![tactic(auto)]

pub mod amplitudes;
pub mod comparisons;
pub mod equivalences;
pub mod expectations;
pub mod generator;
pub mod groups;
pub mod lists;
pub mod orbit_lists;
pub mod parities;
pub mod records;
pub mod run;
pub mod sources;
pub mod stores;
pub mod texts;
mod ties;
pub mod version;
