// What the public calls and the programs promise: no function stands here.
#![tactic(auto)]
