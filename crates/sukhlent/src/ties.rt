// What the demands say of each exported function, as the contract of a function that does nothing but call it, and
// asks nothing of its arguments.
mod amplitudes;
mod comparisons;
mod equivalences;
mod expectations;
mod generator;
mod groups;
mod lists;
mod orbit_lists;
mod parities;
mod records;
mod run;
mod sources;
mod stores;
mod texts;
mod version;
