//! What members of options are read as, by the type that has what they say.
ghost use Rattle.std.specs.Prelude.{◌≡◌, ◌≢◌, [], Ok, Err, IfOk};
ghost use Rattle.serde_json.specs.View.{view, items_view};
ghost use Rattle.osb_tree.specs.Nodes.{IsOwner};
ghost use Rattle.osb_stages.specs.Readers.{Reader, optional, if_there, number_to, account_name, account_key, values, values_of};

use crate::owners::{AccountName, Owner};
use crate::readers::{Key, number_to, text};
use osb_tree::{List, OptionFault, Text};
use serde_json::Value;
use std::alloc::Global;

/// What the value of a member says.
pub trait Member: Sized + Drop {
    /// What it is read as, or its fault, which has the member's name.
    ghost reader: { Reader Self };

    fn read(alloc: Global, name: &str, value: &Value) -> Result<Self, OptionFault>
        ensures member { result ≢ Err OptionFault.NoMemory → result ≡ reader name.now (view value.now) };
}

impl Member for Owner {
    ghost reader = { number_to 4294967294 };

    fn read(alloc: Global, name: &str, value: &Value) -> Result<Self, OptionFault> {
        let number = number_to(alloc, 4_294_967_294, name, value)?;
        Ok(Owner::new(number))
    }
}

impl Member for AccountName {
    ghost reader = { account_name };

    fn read(alloc: Global, name: &str, value: &Value) -> Result<Self, OptionFault> {
        let called = text(alloc, name, value)?;
        match AccountName::new(called) {
            Some(called) => Ok(called),
            None => Err(OptionFault::OutOfRange(Text::new(alloc, name)?)),
        }
    }
}

impl Key for AccountName {
    ghost key_of = { account_key };

    fn read(alloc: Global, name: &str) -> Result<Self, OptionFault> {
        match AccountName::new(Text::new(alloc, name)?) {
            Some(called) => Ok(called),
            None => Err(OptionFault::OutOfRange(Text::new(alloc, name)?)),
        }
    }
}

/// What a member says where it is there.
pub fn if_there<T: Member>(
    alloc: Global,
    name: &str,
    options: &Value,
) -> Result<Option<T>, OptionFault>
    ensures member { result ≢ Err OptionFault.NoMemory → result ≡ if_there T.reader name.now (view options.now) }
{
    match options.get(name) {
        Some(value) => Ok(Some(T::read(alloc, name, value)?)),
        None => Ok(None),
    }
}

/// The items of a list, which is empty where it is not there.
pub fn items_if_there<T: Member>(
    alloc: Global,
    name: &str,
    options: &Value,
) -> Result<List<T>, OptionFault>
    ensures items { result ≢ Err OptionFault.NoMemory → result ≡ optional (values_of T.reader) [] name.now (view options.now) }
{
    match options.get(name) {
        Some(value) => values_of(alloc, name, value),
        None => Ok(List::new(Vec::new(alloc))),
    }
}

fn values_of<T: Member>(alloc: Global, name: &str, value: &Value) -> Result<List<T>, OptionFault>
    ensures { result ≢ Err OptionFault.NoMemory → result ≡ values_of T.reader name.now (view value.now) }
{
    match value.as_array() {
        Some(items) => values(alloc, name, items),
        None => Err(OptionFault::WrongKind(Text::new(alloc, name)?)),
    }
}

fn values<T: Member>(alloc: Global, name: &str, list: &[Value]) -> Result<List<T>, OptionFault>
    ensures { result ≢ Err OptionFault.NoMemory → result ≡ values T.reader name.now (items_view list.now) }
{
    let mut items = Vec::new(alloc);
    for value in list {
        items.push(T::read(alloc, name, value)?)?;
    }
    Ok(List::new(items))
}
