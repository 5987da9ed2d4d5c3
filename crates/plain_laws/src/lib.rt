//! Laws of tests, lists, numbers, texts and results that several crates cite, in the words of std alone.
#![tactic(auto)]
