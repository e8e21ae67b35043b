// Document 01's cases A to L, and more of their kind, by computation of layout's definitions: no code, only proofs/Cases.antt.
#![tactic(auto)]
