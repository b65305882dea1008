//! Reads JSON values, one a line, and prints the text of each as Python's `json.dumps` gives it with keys
//! sorted, or why it has none.
#![tactic(auto)]

use anyhow::Result;
use osb_pyjson::{PyFault, py_text};
use serde_json::Value;

fn main(rt: HostRuntime) -> Result<()> {
    for line in rt.lines(rt.alloc()) {
        let value = Value::from_str(rt.alloc(), line?.as_str())?;
        match py_text(rt.alloc(), &value) {
            Ok(text) => println!(rt; "{}", text.as_str())?,
            Err(PyFault::NotWhole) => println!(rt; "not whole")?,
            Err(fault) => return Err(fault.into()),
        }
    }
    Ok(())
}
