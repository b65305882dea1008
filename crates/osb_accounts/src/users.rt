//! `org.osbuild.users`: adds users, and changes those that are there.
ghost use Rattle.std.specs.Prelude.{◌≡◌, ◌≢◌, Ok, Err, IfErr, IfOk, OnOk};
ghost use Rattle.serde_json.specs.View.{view};
ghost use Rattle.osb_stages.specs.Readers.{IsObject};
ghost use Rattle.osb_stages.specs.Rules.{in_order};
ghost use Rattle.osb_tree.specs.Accounts.{account_path};
ghost use Rattle.osb_tree.specs.declared.accounts.AccountFile.TheVariants.{Passwd, Group, Shadow};
ghost use Rattle.osb_accounts.specs.Kept.{FileIsKept, is_of_one, is_joined};
ghost use Rattle.osb_accounts.specs.UserOptions.{user_options, users_options};
ghost use Rattle.osb_accounts.specs.Homes.{with_home};
ghost use Rattle.osb_accounts.specs.Users.{with_account, with_user, users};

use crate::changed_users::change_user;
use crate::files::Accounts;
use crate::homes::make_homes;
use crate::memberships::join_groups;
use crate::new_users::add_user;
use crate::texts::{FieldText, Home, LineText};
use osb_stages::members::{if_there, items_if_there};
use osb_stages::owners::{AccountName, Owner};
use osb_stages::readers::{Item, no_others, required_entries};
use osb_tree::{Inputs, List, OptionFault, StageFault, Tree};
use serde_json::Value;
use std::alloc::Global;

/// What a user gets. What is not given stays as it is where the user is there, and has its usual value otherwise.
#[derive(Debug, Drop)]
pub struct User {
    pub uid: Option<Owner>,
    /// The number of the user's own group.
    pub gid: Option<Owner>,
    /// Further groups.
    pub groups: List<AccountName>,
    pub description: Option<FieldText>,
    pub home: Option<Home>,
    pub shell: Option<FieldText>,
    /// As the file of passwords has it.
    pub password: Option<FieldText>,
    /// A line of `authorized_keys`, which comes before those of `keys`.
    pub key: Option<LineText>,
    pub keys: List<LineText>,
}

#[derive(Debug, Drop)]
pub struct Options {
    pub users: List<(AccountName, User)>,
}

impl Item for User {
    ghost item_of = { user_options };

    fn read(alloc: Global, options: &Value) -> Result<Self, OptionFault> {
        let uid = if_there(alloc, "uid", options)?;
        let gid = if_there(alloc, "gid", options)?;
        let groups = items_if_there(alloc, "groups", options)?;
        let description = if_there(alloc, "description", options)?;
        let home = if_there(alloc, "home", options)?;
        let shell = if_there(alloc, "shell", options)?;
        let password = if_there(alloc, "password", options)?;
        let key = if_there(alloc, "key", options)?;
        let keys = items_if_there(alloc, "keys", options)?;
        no_others(
            alloc,
            &[
                "uid",
                "gid",
                "groups",
                "description",
                "home",
                "shell",
                "password",
                "key",
                "keys",
            ],
            options,
        )?;
        Ok(User {
            uid,
            gid,
            groups,
            description,
            home,
            shell,
            password,
            key,
            keys,
        })
    }
}

pub fn read_options(alloc: Global, value: &Value) -> Result<Options, OptionFault>
    requires { IsObject (view value.now) }
    ensures options { result ≢ Err OptionFault.NoMemory → result ≡ users_options (view value.now) }
{
    let users = required_entries(alloc, "users", value)?;
    no_others(alloc, &["users"], value)?;
    Ok(Options { users })
}

/// Makes the users in order, writes the account files, and makes the homes in order, up to the first fault. After a
/// fault the tree is gone.
pub fn apply(
    alloc: Global,
    options: &Options,
    mut tree: Tree,
    _inputs: &Inputs,
) -> Result<Tree, StageFault>
    ensures effect { result ≢ Err StageFault.NoMemory → result ≡ users options.now tree }
    ensures passwd_kept { IfOk result (λ after. FileIsKept (is_of_one options.now.users) (account_path Passwd) tree after) }
    ensures group_kept { IfOk result (λ after. FileIsKept (is_joined options.now.users) (account_path Group) tree after) }
    ensures shadow_kept { IfOk result (λ after. FileIsKept (is_of_one options.now.users) (account_path Shadow) tree after) }
{
    let users = options.users.as_slice();
    let mut files = Accounts::read(alloc, &tree)?;
    let kept = files.passwd.as_slice().len();
    make_users(alloc, users, &mut files)?;
    files.write(alloc, &mut tree)?;
    make_homes(alloc, kept, &files.passwd, users, &mut tree)?;
    Ok(tree)
}

fn make_users(
    alloc: Global,
    users: &[(AccountName, User)],
    files: &mut Accounts,
) -> Result<(), StageFault>
    ensures ok { OnOk result (in_order with_user users.now files.old ≡ Ok files.new) }
    ensures fault { IfErr result (λ fault. fault ≢ StageFault.NoMemory → in_order with_user users.now files.old ≡ Err fault) }
{
    for user in users {
        make_user(alloc, user, files)?;
    }
    Ok(())
}

fn make_user(
    alloc: Global,
    entry: &(AccountName, User),
    files: &mut Accounts,
) -> Result<(), StageFault>
    ensures ok { OnOk result (with_user entry.now files.old ≡ Ok files.new) }
    ensures fault { IfErr result (λ fault. fault ≢ StageFault.NoMemory → with_user entry.now files.old ≡ Err fault) }
{
    let (name, user) = entry;
    make_account(alloc, name, user, files)?;
    join_groups(alloc, name, user.groups.as_slice(), &mut files.group)
}

fn make_account(
    alloc: Global,
    name: &AccountName,
    user: &User,
    files: &mut Accounts,
) -> Result<(), StageFault>
    ensures ok { OnOk result (with_account name.now user.now files.old ≡ Ok files.new) }
    ensures fault { IfErr result (λ fault. fault ≢ StageFault.NoMemory → with_account name.now user.now files.old ≡ Err fault) }
{
    match files.passwd.place_of(name.as_str().as_bytes()) {
        Some(place) => change_user(alloc, place, name, user, files),
        None => add_user(alloc, name, user, files),
    }
}
