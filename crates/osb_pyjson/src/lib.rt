//! The text that Python's `json.dumps` gives, with keys sorted and its defaults else.
#![tactic(auto)]

mod escapes;
mod faults;
mod laws;
mod quotes;
mod writers;

pub use faults::PyFault;
pub use laws::py_text_tells_values;
pub use quotes::py_string;
pub use writers::py_text;
