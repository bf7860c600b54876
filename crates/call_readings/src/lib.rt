// The public calls that read their arguments and answer in lent buffers: image, cut, amplitude, expectation, expand,
// orbit, generate.
#![tactic(auto)]

pub mod amplitudes;
pub mod cuts;
pub mod expansions;
pub mod expectations;
pub mod generated_jobs;
pub mod images;
pub mod orbit_lists;
