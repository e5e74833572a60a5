// The limit on disturbance: specs/Claims.antt states it of lists of calls and of the answers of `tracker`'s functions, and what holds besides;
// proofs/Claims.antt proves each statement from the definitions of `tracker` and `bound`.
#![tactic(auto)]
