// What the lines of a log say, over every list of calls: no code, only statements and their proofs.

#![tactic(auto)]
