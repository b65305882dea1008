//! What recipes mean is a tree.
#![tactic(auto)]

pub mod laws;
