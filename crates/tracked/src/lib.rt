// What holds over every list of calls on one tracker, and of what it hands to the writer of reports: theorems, no function.
// Carries request No. 4 of document 02, with a case for each of its sentences.
// The statements stand in specs/; proofs/ proves them by their names.

#![tactic(auto)]
