// The laws that the proofs of every layer cite, each proved once. There is no code here: specs/ has the laws, a file for
// each shape that code takes (a choice, a loop, a store into bytes, a table).
#![tactic(auto)]
