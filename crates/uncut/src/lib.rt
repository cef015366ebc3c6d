// No function: what reading a report in pieces means, one step for one byte, and that cutting does not matter.
// Carries the definitions and theorems of request No. 6 of document 02; crate pieces has the calls.

#![tactic(auto)]
