//! Laws of the data folder's state: what depends on what, and what the end of a listing tells.
#![tactic(auto)]
