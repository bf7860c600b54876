// The image rule: which graph a local Clifford for each vertex makes of a graph, and when there is one. The code stands
// in image_impl and image_impl.
#![tactic(auto)]
