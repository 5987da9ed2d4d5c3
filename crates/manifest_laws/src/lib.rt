//! Laws of what a manifest says that was read, in words of several crates above its readers.
#![tactic(auto)]
