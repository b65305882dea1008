//! Users that are not there yet.
ghost use Rattle.std.specs.Prelude.{◌≡◌, ◌≢◌, ◌++◌, codes, Ok, Err, IfErr, IfOk, OnOk, unwrap_or};
ghost use Rattle.osb_accounts.specs.Users.{with_own_group, with_user_group, home_text, passwd_line, with_new_user};

use crate::files::Accounts;
use crate::groups::group_line;
use crate::numbers::{free_number, is_taken, new_number};
use crate::passwords::set_password;
use crate::pieces::{copied, decimal};
use crate::texts::{FieldText, Home};
use crate::users::User;
use crate::{Line, Lines};
use osb_stages::owners::{AccountName, Owner};
use osb_tree::{Bytes, NoMemory, StageFault};
use std::alloc::Global;

/// Adds a user, and a group of the user's name where there is none and no other was given.
pub(crate) fn add_user(
    alloc: Global,
    name: &AccountName,
    user: &User,
    files: &mut Accounts,
) -> Result<(), StageFault>
    ensures ok { OnOk result (with_new_user name.now user.now files.old ≡ Ok files.new) }
    ensures fault { IfErr result (λ fault. fault ≢ StageFault.NoMemory → with_new_user name.now user.now files.old ≡ Err fault) }
{
    let uid = new_number(alloc, &user.uid, &files.passwd)?;
    let gid = user_group(alloc, name, uid, &user.gid, &mut files.group)?;
    let line = passwd_line(alloc, name, uid, gid, user)?;
    files.passwd.push(line)?;
    let password = text_or(&user.password, b"!");
    set_password(alloc, name, password, &mut files.shadow)?;
    Ok(())
}

/// The number of a new user's group.
fn user_group(
    alloc: Global,
    name: &AccountName,
    uid: Owner,
    given: &Option<Owner>,
    groups: &mut Lines,
) -> Result<Owner, StageFault>
    ensures ok { IfOk result (λ gid. with_user_group name.now uid given.now groups.old ≡ Ok (gid, groups.new)) }
    ensures fault { IfErr result (λ fault. fault ≢ StageFault.NoMemory → with_user_group name.now uid given.now groups.old ≡ Err fault) }
{
    match given {
        Some(gid) => Ok(*gid),
        None => own_group(alloc, name, uid, groups),
    }
}

/// The number of the group of a new user's name, which is made where it is not there.
fn own_group(
    alloc: Global,
    name: &AccountName,
    uid: Owner,
    groups: &mut Lines,
) -> Result<Owner, StageFault>
    ensures ok { IfOk result (λ gid. with_own_group name.now uid groups.old ≡ Ok (gid, groups.new)) }
    ensures fault { IfErr result (λ fault. fault ≢ StageFault.NoMemory → with_own_group name.now uid groups.old ≡ Err fault) }
{
    if let Some(place) = groups.place_of(name.as_str().as_bytes()) {
        return Ok(groups.line_at(place).owner_at(2));
    }
    let gid = if is_taken(uid.number(), groups.as_slice()) {
        free_number(alloc, groups)?
    } else {
        uid
    };
    let line = group_line(alloc, name, gid)?;
    groups.push(line)?;
    Ok(gid)
}

fn passwd_line(
    alloc: Global,
    name: &AccountName,
    uid: Owner,
    gid: Owner,
    user: &User,
) -> Result<Line, NoMemory>
    ensures { IfOk result (λ line. line ≡ passwd_line name.now uid gid user.now) }
{
    let mut fields = Vec::new(alloc);
    fields.push(copied(alloc, name.as_str().as_bytes())?)?;
    fields.push(copied(alloc, b"x")?)?;
    fields.push(decimal(alloc, uid.number())?)?;
    fields.push(decimal(alloc, gid.number())?)?;
    fields.push(copied(alloc, text_or(&user.description, b""))?)?;
    fields.push(home_text(alloc, name, &user.home)?)?;
    fields.push(copied(alloc, text_or(&user.shell, b"/bin/bash"))?)?;
    Ok(Line::new(fields))
}

/// The text that is given, or its usual value.
fn text_or<'a>(text: &'a Option<FieldText>, usual: &'a [u8]) -> &'a [u8]
    ensures { result.now ≡ unwrap_or text.now usual.now }
{
    match text {
        Some(text) => text.as_bytes(),
        None => usual,
    }
}

fn home_text(alloc: Global, name: &AccountName, home: &Option<Home>) -> Result<Bytes, NoMemory>
    ensures { IfOk result (λ text. text ≡ home_text name.now home.now) }
{
    match home {
        Some(home) => copied(alloc, home.path().text(alloc)?.as_str().as_bytes()),
        None => {
            let text = format!(in alloc; "/home/{}", name.as_str())?;
            Ok(Bytes::new(text.into_bytes()))
        }
    }
}
