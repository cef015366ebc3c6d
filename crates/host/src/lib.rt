// The archive for hosts in C and Rust: the receiver's calls under their C names, as include/lumbixet.h declares them.
// The other crates that crates.txt marks as static libraries have the others, and the Makefile joins all into one file.
// Document 01 leaves sockets, encryption, loss recovery and rate control outside: the host has them.
// Where a lower crate answers an enum, a host gets the paper's number and the case's values, and 0 for what the case has not.

#![tactic(auto)]

mod calls;
