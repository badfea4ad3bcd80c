// Demand 3: what is claimed of every list of calls (specs/) and its proof (proofs/). No functions; the calls are those of the crates
// below, by the outcomes that their contracts cite.
#![tactic(auto)]
