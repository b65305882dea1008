//! Python's text of a value, read back.
#![tactic(auto)]

mod faults;
mod numbers;
mod strings;
mod values;
mod words;

pub use values::py_value;
