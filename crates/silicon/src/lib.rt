// The silicon behind a listing: specs/Silicon.antt says, from a trace and a listing alone, what it did; specs/Claims.antt, what then holds of each row's
// disturbance; proofs/Claims.antt proves each statement from the limit and the listing's definition.
#![tactic(auto)]
