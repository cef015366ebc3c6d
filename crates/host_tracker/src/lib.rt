// For the archive of crate host: the tracker's calls under their C names.

#![tactic(auto)]

mod tracked;
