// Tables never share a page: definitions and proofs only. The walk's code stands in chain and table_walk.

#![tactic(auto)]
