// What holds over every list of calls on one loss list, from its opening on: theorems, no function.
// Carries request No. 9 of document 02.
// The statements stand in specs/; proofs/ proves them by their names.

#![tactic(auto)]
