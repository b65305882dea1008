//! Readers of options. Each gives what a value says, or the first fault with the name of the member at fault.
ghost use Rattle.std.specs.Prelude.{◌≡◌, ◌≢◌, ◌≤◌, ℕ, List as Items, Ok, Err, IfOk, map};
ghost use Rattle.std.specs.List.{list_all};
ghost use Rattle.serde_json.specs.Data.{Data, string};
ghost use Rattle.serde_json.specs.View.{view, items_view, members_view};
ghost use Rattle.osb_stages.specs.Names.{is_word_byte, is_name_byte, is_account_name};
ghost use Rattle.osb_stages.specs.Readers.{Read, required, optional, if_there, no_others, is_among, flag, text, number_to, path, account, objects, list_of, path_key, entry, entries, entries_of};

use crate::owners::{Account, Owner};
use osb_tree::{List, OptionFault, Path, PathFault, Text};
use serde_json::{Map, Value};
use std::alloc::Global;

/// What one object of a list of objects says.
pub trait Item: Sized + Drop {
    /// What it is read as, or its first fault.
    ghost item_of: { Data → Read Self };

    fn read(alloc: Global, options: &Value) -> Result<Self, OptionFault>
        ensures item { result ≢ Err OptionFault.NoMemory → result ≡ item_of (view options.now) };
}

/// What the name of a member of an object says.
pub trait Key: Sized + Drop {
    /// What it is read as, or its fault.
    ghost key_of: { Items ℕ → Read Self };

    fn read(alloc: Global, name: &str) -> Result<Self, OptionFault>
        ensures key { result ≢ Err OptionFault.NoMemory → result ≡ key_of name.now };
}

impl Key for Path {
    ghost key_of = { path_key };

    fn read(alloc: Global, name: &str) -> Result<Self, OptionFault> {
        path_in(alloc, name, name)
    }
}

/// The text that a member has to be.
pub fn required_text(alloc: Global, name: &str, options: &Value) -> Result<Text, OptionFault>
    ensures text { result ≢ Err OptionFault.NoMemory → result ≡ required text name.now (view options.now) }
{
    match options.get(name) {
        Some(value) => text(alloc, name, value),
        None => Err(OptionFault::Missing(Text::new(alloc, name)?)),
    }
}

/// The path that a member has to be.
pub fn required_path(alloc: Global, name: &str, options: &Value) -> Result<Path, OptionFault>
    ensures path { result ≢ Err OptionFault.NoMemory → result ≡ required path name.now (view options.now) }
{
    match options.get(name) {
        Some(value) => path(alloc, name, value),
        None => Err(OptionFault::Missing(Text::new(alloc, name)?)),
    }
}

/// A whole number from 0 to `last`.
pub fn optional_number(
    alloc: Global,
    last: u32,
    absent: u32,
    name: &str,
    options: &Value,
) -> Result<u32, OptionFault>
    ensures number { result ≢ Err OptionFault.NoMemory → result ≡ optional (number_to last) absent name.now (view options.now) }
    ensures within { absent ≤ last → IfOk result (λ number. number ≤ last) }
{
    match options.get(name) {
        Some(value) => number_to(alloc, last, name, value),
        None => Ok(absent),
    }
}

/// A truth value.
pub fn optional_flag(
    alloc: Global,
    absent: bool,
    name: &str,
    options: &Value,
) -> Result<bool, OptionFault>
    ensures flag { result ≢ Err OptionFault.NoMemory → result ≡ optional flag absent name.now (view options.now) }
{
    match options.get(name) {
        Some(value) => flag(alloc, name, value),
        None => Ok(absent),
    }
}

/// An account that a member may name or number.
pub fn optional_account(
    alloc: Global,
    name: &str,
    options: &Value,
) -> Result<Option<Account>, OptionFault>
    ensures account { result ≢ Err OptionFault.NoMemory → result ≡ if_there account name.now (view options.now) }
{
    match options.get(name) {
        Some(value) => Ok(Some(account(alloc, name, value)?)),
        None => Ok(None),
    }
}

/// An object that a member has to be, from names that are read as keys to objects that are read as items.
pub fn required_entries<K: Key, T: Item>(
    alloc: Global,
    name: &str,
    options: &Value,
) -> Result<List<(K, T)>, OptionFault>
    ensures entries { result ≢ Err OptionFault.NoMemory → result ≡ required (entries_of K.key_of T.item_of) name.now (view options.now) }
{
    match options.get(name) {
        Some(value) => entries_of(alloc, name, value),
        None => Err(OptionFault::Missing(Text::new(alloc, name)?)),
    }
}

/// A list of objects that a member has to be, each read as an item.
pub fn required_list<T: Item>(
    alloc: Global,
    name: &str,
    options: &Value,
) -> Result<List<T>, OptionFault>
    ensures list { result ≢ Err OptionFault.NoMemory → result ≡ required (list_of T.item_of) name.now (view options.now) }
{
    match options.get(name) {
        Some(value) => list(alloc, name, value),
        None => Err(OptionFault::Missing(Text::new(alloc, name)?)),
    }
}

/// Refuses the first member, by name, that is none of these.
pub fn no_others(alloc: Global, names: &[&str], options: &Value) -> Result<(), OptionFault>
    ensures known { result ≢ Err OptionFault.NoMemory → result ≡ no_others (map (λ name. name.now) names.now) (view options.now) }
{
    let Some(members) = options.as_object() else {
        return Ok(());
    };
    for (name, _) in members.iter() {
        if !is_among(names, name.as_str()) {
            return Err(OptionFault::UnknownMember(Text::new(alloc, name.as_str())?));
        }
    }
    Ok(())
}

fn is_among(names: &[&str], name: &str) -> bool
    ensures { result ≡ is_among (map (λ name. name.now) names.now) name.now }
{
    for known in names {
        if *known == name {
            return true;
        }
    }
    false
}

fn flag(alloc: Global, name: &str, value: &Value) -> Result<bool, OptionFault>
    ensures { result ≢ Err OptionFault.NoMemory → result ≡ flag name.now (view value.now) }
{
    match value.as_bool() {
        Some(flag) => Ok(flag),
        None => Err(OptionFault::WrongKind(Text::new(alloc, name)?)),
    }
}

pub fn text(alloc: Global, name: &str, value: &Value) -> Result<Text, OptionFault>
    ensures text { result ≢ Err OptionFault.NoMemory → result ≡ text name.now (view value.now) }
{
    match value.as_str() {
        Some(text) => Ok(Text::new(alloc, text)?),
        None => Err(OptionFault::WrongKind(Text::new(alloc, name)?)),
    }
}

pub(crate) fn number_to(
    alloc: Global,
    last: u32,
    name: &str,
    value: &Value,
) -> Result<u32, OptionFault>
    ensures within { IfOk result (λ number. number ≤ last) }
    ensures number { result ≢ Err OptionFault.NoMemory → result ≡ number_to last name.now (view value.now) }
{
    if !value.is_number() {
        return Err(OptionFault::WrongKind(Text::new(alloc, name)?));
    }
    match value.as_u64() {
        Some(number) if number <= u64::from(last) => Ok(number as u32),
        _ => Err(OptionFault::OutOfRange(Text::new(alloc, name)?)),
    }
}

pub fn path(alloc: Global, name: &str, value: &Value) -> Result<Path, OptionFault>
    ensures path { result ≢ Err OptionFault.NoMemory → result ≡ path name.now (view value.now) }
{
    let Some(text) = value.as_str() else {
        return Err(OptionFault::WrongKind(Text::new(alloc, name)?));
    };
    path_in(alloc, name, text)
}

/// The path that a text gives, which a member has or is called.
fn path_in(alloc: Global, name: &str, text: &str) -> Result<Path, OptionFault>
    ensures { result ≢ Err OptionFault.NoMemory → result ≡ path name.now (string text.now) }
{
    match Path::read(alloc, text) {
        Ok(path) => Ok(path),
        Err(PathFault::NoMemory) => Err(OptionFault::NoMemory),
        Err(_) => Err(OptionFault::BadPath(Text::new(alloc, name)?)),
    }
}

fn account(alloc: Global, name: &str, value: &Value) -> Result<Account, OptionFault>
    ensures { result ≢ Err OptionFault.NoMemory → result ≡ account name.now (view value.now) }
{
    let Some(called) = value.as_str() else {
        let number = number_to(alloc, 4_294_967_294, name, value)?;
        return Ok(Account::Number(Owner::new(number)));
    };
    if !is_account_name(called.as_bytes()) {
        return Err(OptionFault::OutOfRange(Text::new(alloc, name)?));
    }
    Ok(Account::Name(Text::new(alloc, called)?))
}

pub(crate) fn is_account_name(name: &[u8]) -> bool
    ensures { result ≡ is_account_name name.now }
{
    match name {
        [] => false,
        [first, rest @ ..] => is_word_byte(*first) && rest.len() <= 31 && are_name_bytes(rest),
    }
}

fn are_name_bytes(bytes: &[u8]) -> bool
    ensures { result ≡ list_all is_name_byte bytes.now }
{
    bytes
        .iter()
        .all(|b| is_word_byte(*b) || *b == b'.' || *b == b'-')
}

fn is_word_byte(byte: u8) -> bool
    ensures { result ≡ is_word_byte byte }
{
    byte.is_ascii_alphanumeric() || byte == b'_'
}

fn list<T: Item>(alloc: Global, name: &str, value: &Value) -> Result<List<T>, OptionFault>
    ensures { result ≢ Err OptionFault.NoMemory → result ≡ list_of T.item_of name.now (view value.now) }
{
    match value.as_array() {
        Some(items) => objects(alloc, name, items),
        None => Err(OptionFault::WrongKind(Text::new(alloc, name)?)),
    }
}

fn objects<T: Item>(alloc: Global, name: &str, values: &[Value]) -> Result<List<T>, OptionFault>
    ensures { result ≢ Err OptionFault.NoMemory → result ≡ objects T.item_of name.now (items_view values.now) }
{
    let mut items = Vec::new(alloc);
    for value in values {
        if !value.is_object() {
            return Err(OptionFault::WrongKind(Text::new(alloc, name)?));
        }
        items.push(T::read(alloc, value)?)?;
    }
    Ok(List::new(items))
}

fn entries_of<K: Key, T: Item>(
    alloc: Global,
    name: &str,
    value: &Value,
) -> Result<List<(K, T)>, OptionFault>
    ensures { result ≢ Err OptionFault.NoMemory → result ≡ entries_of K.key_of T.item_of name.now (view value.now) }
{
    match value.as_object() {
        Some(members) => entries(alloc, members),
        None => Err(OptionFault::WrongKind(Text::new(alloc, name)?)),
    }
}

fn entries<K: Key, T: Item>(
    alloc: Global,
    members: &Map<String, Value>,
) -> Result<List<(K, T)>, OptionFault>
    ensures { result ≢ Err OptionFault.NoMemory → result ≡ entries K.key_of T.item_of (members_view members.now.entries) }
{
    let mut items = Vec::new(alloc);
    for (name, value) in members.iter() {
        items.push(entry(alloc, name.as_str(), value)?)?;
    }
    Ok(List::new(items))
}

fn entry<K: Key, T: Item>(alloc: Global, name: &str, value: &Value) -> Result<(K, T), OptionFault>
    ensures { result ≢ Err OptionFault.NoMemory → result ≡ entry K.key_of T.item_of name.now (view value.now) }
{
    let key = K::read(alloc, name)?;
    if value.is_object() {
        Ok((key, T::read(alloc, value)?))
    } else {
        Err(OptionFault::WrongKind(Text::new(alloc, name)?))
    }
}
