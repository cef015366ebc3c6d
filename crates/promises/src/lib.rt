// What holds over every sequence of calls on one receiver, and the settled examples: theorems, no function.
// Carries the demands of document 01: "For demand 3", "Settled examples" and "How much a promise says".
// The statements stand in specs/, each on its own page; proofs/ proves them by their names.

#![tactic(auto)]
