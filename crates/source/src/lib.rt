// New photons at used places, and measurements with a bit by lot: see specs/ for the lines and what a call leaves, and
// proofs/ for the laws.
// A group's observation and renewal on a shared record: see specs/ for the lines and what each leaves, and proofs/ for
// the laws.
#![tactic(auto)]
