//! Passwords of users.
ghost use Rattle.std.specs.Prelude.{◌≡◌, IfOk, OnOk};
ghost use Rattle.osb_accounts.specs.Users.{shadow_line, with_password, with_given_password};

use crate::pieces::copied;
use crate::texts::FieldText;
use crate::{Line, Lines};
use osb_stages::owners::AccountName;
use osb_tree::{Bytes, NoMemory};
use std::alloc::Global;

pub(crate) fn set_given_password(
    alloc: Global,
    name: &AccountName,
    password: &Option<FieldText>,
    lines: &mut Lines,
) -> Result<(), NoMemory>
    ensures ok { OnOk result (lines.new ≡ with_given_password name.now password.now lines.old) }
{
    match password {
        Some(password) => set_password(alloc, name, password.as_bytes(), lines),
        None => Ok(()),
    }
}

/// Sets the password in the line of the user, or adds a line with it.
pub(crate) fn set_password(
    alloc: Global,
    name: &AccountName,
    password: &[u8],
    lines: &mut Lines,
) -> Result<(), NoMemory>
    ensures ok { OnOk result (lines.new ≡ with_password name.now password.now lines.old) }
{
    match lines.place_of(name.as_str().as_bytes()) {
        Some(place) => {
            lines.set_field(place, 1, copied(alloc, password)?);
            Ok(())
        }
        None => lines.push(shadow_line(alloc, name, password)?),
    }
}

/// A new line, as useradd(8) makes it: the password can be changed at any time, and is to be changed after 99,999 days,
/// of which a warning comes 7 days before.
fn shadow_line(alloc: Global, name: &AccountName, password: &[u8]) -> Result<Line, NoMemory>
    ensures { IfOk result (λ line. line ≡ shadow_line name.now password.now) }
{
    let mut fields = Vec::new(alloc);
    fields.push(copied(alloc, name.as_str().as_bytes())?)?;
    fields.push(copied(alloc, password)?)?;
    fields.push(Bytes::new(Vec::new(alloc)))?;
    fields.push(copied(alloc, b"0")?)?;
    fields.push(copied(alloc, b"99999")?)?;
    fields.push(copied(alloc, b"7")?)?;
    fields.push(Bytes::new(Vec::new(alloc)))?;
    fields.push(Bytes::new(Vec::new(alloc)))?;
    fields.push(Bytes::new(Vec::new(alloc)))?;
    Ok(Line::new(fields))
}
