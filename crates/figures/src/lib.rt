// Document 01's worked figures and edges of the tracker's calls, proved from the definitions: specs/ has the tables, proofs/Tests.antt the shared theorem.
#![tactic(auto)]
