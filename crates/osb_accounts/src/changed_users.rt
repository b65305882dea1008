//! Users that are there already.
ghost use Rattle.std.specs.Prelude.{◌≡◌, ◌≢◌, ◌<◌, ◌∷◌, ◌||◌, take, drop, length, decimal, Some, None, Ok, Err, IfErr, IfOk, OnOk};
ghost use Rattle.std.specs.Option.{option_map};
ghost use Rattle.osb_tree.specs.Paths.{path_text};
ghost use Rattle.osb_accounts.specs.Lines.{is_taken};
ghost use Rattle.osb_accounts.specs.Users.{taken_number, with_given, with_given_fields, with_changed_user};

use crate::Lines;
use crate::files::Accounts;
use crate::numbers::is_taken;
use crate::passwords::set_given_password;
use crate::pieces::{copied, decimal};
use crate::texts::{FieldText, Home};
use crate::users::User;
use osb_stages::owners::{AccountName, Owner};
use osb_tree::{Bytes, NoMemory, StageFault};
use std::alloc::Global;

/// Changes what is given in the line at a place, and the password.
pub(crate) fn change_user(
    alloc: Global,
    place: usize,
    name: &AccountName,
    user: &User,
    files: &mut Accounts,
) -> Result<(), StageFault>
    requires { place < length files.old.passwd }
    ensures ok { OnOk result (with_changed_user place name.now user.now files.old ≡ Ok files.new) }
    ensures fault { IfErr result (λ fault. fault ≢ StageFault.NoMemory → with_changed_user place name.now user.now files.old ≡ Err fault) }
{
    check_number(place, &user.uid, &files.passwd)?;
    set_given_fields(alloc, place, user, &mut files.passwd)?;
    set_given_password(alloc, name, &user.password, &mut files.shadow)?;
    Ok(())
}

/// A number that another line has can't be given.
fn check_number(place: usize, uid: &Option<Owner>, lines: &Lines) -> Result<(), StageFault>
    requires { place < length lines.now }
    ensures ok { OnOk result (taken_number place uid.now lines.now ≡ None) }
    ensures fault { IfErr result (λ fault. taken_number place uid.now lines.now ≡ Some fault) }
{
    let Some(uid) = uid else {
        return Ok(());
    };
    let number = uid.number();
    let lines = lines.as_slice();
    if is_taken(number, &lines[..place]) || is_taken(number, &lines[place + 1..]) {
        return Err(StageFault::NumberTaken(u64::from(number)));
    }
    Ok(())
}

fn set_given_fields(
    alloc: Global,
    place: usize,
    user: &User,
    lines: &mut Lines,
) -> Result<(), NoMemory>
    requires { place < length lines.old }
    ensures { OnOk result (lines.new ≡ with_given_fields place user.now lines.old) }
{
    set_given(place, 2, number_text(alloc, &user.uid)?, lines);
    set_given(place, 3, number_text(alloc, &user.gid)?, lines);
    set_given(place, 4, field_text(alloc, &user.description)?, lines);
    set_given(place, 5, home_text(alloc, &user.home)?, lines);
    set_given(place, 6, field_text(alloc, &user.shell)?, lines);
    Ok(())
}

fn set_given(place: usize, field: usize, text: Option<Bytes>, lines: &mut Lines)
    requires { place < length lines.old }
    ensures given { lines.new ≡ with_given place field text lines.old }
    ensures count { length lines.new ≡ length lines.old }
{
    if let Some(text) = text {
        lines.set_field(place, field, text);
    }
}

fn number_text(alloc: Global, number: &Option<Owner>) -> Result<Option<Bytes>, NoMemory>
    ensures { IfOk result (λ text. text ≡ option_map decimal number.now) }
{
    match number {
        Some(number) => Ok(Some(decimal(alloc, number.number())?)),
        None => Ok(None),
    }
}

fn field_text(alloc: Global, text: &Option<FieldText>) -> Result<Option<Bytes>, NoMemory>
    ensures { IfOk result (λ copy. copy ≡ text.now) }
{
    match text {
        Some(text) => Ok(Some(copied(alloc, text.as_bytes())?)),
        None => Ok(None),
    }
}

fn home_text(alloc: Global, home: &Option<Home>) -> Result<Option<Bytes>, NoMemory>
    ensures { IfOk result (λ text. text ≡ option_map path_text home.now) }
{
    match home {
        Some(home) => {
            let text = home.path().text(alloc)?;
            Ok(Some(copied(alloc, text.as_str().as_bytes())?))
        }
        None => Ok(None),
    }
}
