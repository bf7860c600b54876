// Worked examples of sessions, jobs and runs of two groups, computed by the definitions: the dearer ones, which no edit is about.
#![tactic(auto)]
