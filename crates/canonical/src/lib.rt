// The canonical spelling of a trace: specs/Spelling.antt defines it, specs/Writing.antt what is turned away where records are written;
// specs/Claims.antt states what holds of both, and proofs/Claims.antt proves each statement. The code stands in `spelling` and `writer`.
#![tactic(auto)]
