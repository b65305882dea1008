//! Trees once more, by a plain and slow program: each call is a scan of a list. Tests compare what it answers with
//! what the trees of `osb_tree` answer.
#![tactic(auto)]

mod trees;

pub use trees::PlainTree;
