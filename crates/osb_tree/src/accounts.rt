//! Account files: lines of fields, as a system lists its users and groups.
ghost use Rattle.std.specs.Prelude.{◌≡◌, ◌≢◌, ◌≤◌, ◌+◌, None, Some, length, IfOk, IfSome, IsTrue, if◌then◌else◌};
ghost use Rattle.std.specs.List.{list_all};
ghost use Rattle.std.specs.Char.{is_ascii_digit};
ghost use Rattle.osb_tree.specs.Accounts.{fields_of, field_at, value_of, is_account_number, field_count, has_numbers, is_account_line, is_line_of, bad_line, number_of, account_path};
ghost use Rattle.osb_tree.specs.Nodes.{IsOwner};

use crate::{NoMemory, Path, PathFault};
use std::alloc::{AllocError, Global};

/// What an account file lists: users, groups, or the passwords of users.
#[derive(Clone, Copy, Debug, PartialEq, Eq)]
pub enum AccountFile {
    Passwd,
    Group,
    Shadow,
}

impl AccountFile {
    /// Where a tree has it: `/etc/passwd`, `/etc/group`, `/etc/shadow`.
    pub fn path(self, alloc: Global) -> Result<Path, NoMemory>
        ensures path { IfOk result (λ path. path ≡ account_path self) }
    {
        let text = match self {
            AccountFile::Passwd => "/etc/passwd",
            AccountFile::Group => "/etc/group",
            AccountFile::Shadow => "/etc/shadow",
        };
        match Path::read(alloc, text) {
            Ok(path) => Ok(path),
            Err(PathFault::NoMemory) => Err(AllocError),
            Err(_) => unreachable!(),
        }
    }
}

/// The number of the first line, from 1, that has not the form of the file's lines. Empty lines are passed over.
pub fn account_check(file: AccountFile, bytes: &[u8]) -> Option<u64>
    ensures bad_line { result ≡ bad_line file bytes.now }
{
    let place = bytes
        .split(|b| *b == b'\n')
        .position(|line| !is_account_line(file, line))?;
    Some(place as u64 + 1)
}

/// The number of the first account of a name: of a user, or of a group.
pub fn account_find(file: AccountFile, bytes: &[u8], name: &str) -> Option<u32>
    requires numbered { file ≢ AccountFile.Shadow }
    requires checked { bad_line file bytes.now ≡ None }
    ensures number { result ≡ number_of name.now bytes.now }
    ensures owner { IfSome result IsOwner }
{
    let line = bytes
        .split(|b| *b == b'\n')
        .find(|line| is_line_of(name, line))?;
    account_number(field_at(2, line))
}

fn is_account_line(file: AccountFile, line: &[u8]) -> bool
    ensures { result ≡ is_account_line file line.now }
{
    line.is_empty() || (count_fields(line) == field_count(file) && has_numbers(file, line))
}

fn count_fields(line: &[u8]) -> usize
    ensures { result ≡ length (fields_of line.now) }
{
    line.split(|b| *b == b':').count()
}

fn field_count(file: AccountFile) -> usize
    ensures { result ≡ field_count file }
{
    match file {
        AccountFile::Passwd => 7,
        AccountFile::Group => 4,
        AccountFile::Shadow => 9,
    }
}

fn has_numbers(file: AccountFile, line: &[u8]) -> bool
    ensures { result ≡ has_numbers file line.now }
{
    match file {
        AccountFile::Passwd => {
            is_account_number(field_at(2, line)) && is_account_number(field_at(3, line))
        }
        AccountFile::Group => is_account_number(field_at(2, line)),
        AccountFile::Shadow => true,
    }
}

/// Empty where the line has no such field.
fn field_at(place: usize, line: &[u8]) -> &[u8]
    ensures { result.now ≡ field_at place line.now }
{
    line.split(|b| *b == b':').nth(place).unwrap_or(&[])
}

fn is_account_number(field: &[u8]) -> bool
    ensures { result ≡ is_account_number field.now }
{
    account_number(field).is_some()
}

/// The number that a field gives, where it is one: 1 to 10 decimal digits, up to the greatest owner.
pub fn account_number(field: &[u8]) -> Option<u32>
    ensures number { result ≡ (if is_account_number field.now then Some (value_of field.now) else None) }
    ensures owner { IfSome result IsOwner }
{
    if field.is_empty() || field.len() > 10 || !are_digits(field) {
        return None;
    }
    let value = value_of(field);
    if value < u64::from(u32::MAX) {
        Some(value as u32)
    } else {
        None
    }
}

fn are_digits(field: &[u8]) -> bool
    ensures { result ≡ list_all is_ascii_digit field.now }
{
    field.iter().all(|b| b.is_ascii_digit())
}

fn value_of(digits: &[u8]) -> u64
    requires digits { IsTrue (list_all is_ascii_digit digits.now) }
    requires few { length digits.now ≤ 10 }
    ensures { result ≡ value_of digits.now }
{
    let mut value = 0;
    for digit in digits {
        value = value * 10 + u64::from(*digit - b'0');
    }
    value
}

fn is_line_of(name: &str, line: &[u8]) -> bool
    ensures { result ≡ is_line_of name.now line.now }
{
    !line.is_empty() && field_at(0, line) == name.as_bytes()
}
