//! `org.osbuild.chown`: changes owners.
ghost use Rattle.std.specs.Prelude.{◌≡◌, ◌≢◌, Ok, Err, IfOk, IfErr, OnOk};
ghost use Rattle.serde_json.specs.View.{view};
ghost use Rattle.osb_stages.specs.Readers.{IsObject};
ghost use Rattle.osb_files.specs.Chown.{some_owner, chown_change, chown_options, number_in, number_at, owner, given_owner, owners, with_owners, chown};
ghost use Rattle.osb_tree.specs.Accounts.{account_path};
ghost use Rattle.osb_tree.specs.Trees.{node_at};

use crate::attributes::{Attributes, give};
use osb_stages::owners::{Account, Owner};
use osb_stages::readers;
use osb_stages::readers::{no_others, optional_account, optional_flag, required_entries};
use osb_tree::accounts::{AccountFile, account_check, account_find};
use osb_tree::{Inputs, List, Node, OptionFault, Path, StageFault, Text, Tree};
use serde_json::Value;
use std::alloc::Global;

/// What a path gets.
#[derive(Debug, Drop)]
pub struct Change {
    pub user: Option<Account>,
    pub group: Option<Account>,
    /// Whether whatever is beneath it gets the owners too.
    pub recursive: bool,
}

#[derive(Debug, Drop)]
pub struct Options {
    pub items: List<(Path, Change)>,
}

impl readers::Item for Change {
    ghost item_of = { chown_change };

    fn read(alloc: Global, options: &Value) -> Result<Self, OptionFault> {
        let user = optional_account(alloc, "user", options)?;
        let group = optional_account(alloc, "group", options)?;
        if user.is_none() && group.is_none() {
            return Err(OptionFault::Missing(Text::new(alloc, "user")?));
        }
        let recursive = optional_flag(alloc, false, "recursive", options)?;
        no_others(alloc, &["user", "group", "recursive"], options)?;
        Ok(Change {
            user,
            group,
            recursive,
        })
    }
}

pub fn read_options(alloc: Global, value: &Value) -> Result<Options, OptionFault>
    requires { IsObject (view value.now) }
    ensures options { result ≢ Err OptionFault.NoMemory → result ≡ chown_options (view value.now) }
{
    let items = required_entries(alloc, "items", value)?;
    no_others(alloc, &["items"], value)?;
    Ok(Options { items })
}

/// Changes the owners in order, up to the first fault. After a fault the tree is gone.
pub fn apply(
    alloc: Global,
    options: &Options,
    mut tree: Tree,
    _inputs: &Inputs,
) -> Result<Tree, StageFault>
    ensures effect { result ≢ Err StageFault.NoMemory → result ≡ chown options.now tree }
{
    for item in options.items.as_slice() {
        change_owners(alloc, item, &mut tree)?;
    }
    Ok(tree)
}

/// Looks accounts up in the tree as it is by now: no change of owners changes what its files list.
fn change_owners(alloc: Global, item: &(Path, Change), tree: &mut Tree) -> Result<(), StageFault>
    ensures ok { OnOk result (with_owners tree.old item.now tree.old ≡ Ok tree.new) }
    ensures fault { IfErr result (λ fault. fault ≢ StageFault.NoMemory → with_owners tree.old item.now tree.old ≡ Err fault) }
{
    let (path, change) = item;
    if tree.get(path).is_none() {
        return Err(StageFault::Missing(path.clone()?));
    }
    let given = owners(alloc, change, tree)?;
    give(alloc, &given, path, change.recursive, tree)?;
    Ok(())
}

/// What nodes get, by the accounts of the tree.
fn owners(alloc: Global, change: &Change, tree: &Tree) -> Result<Attributes, StageFault>
    ensures { result ≢ Err StageFault.NoMemory → result ≡ owners tree.now change.now }
{
    let uid = given_owner(alloc, AccountFile::Passwd, &change.user, tree)?;
    let gid = given_owner(alloc, AccountFile::Group, &change.group, tree)?;
    Ok(Attributes {
        mode: None,
        uid,
        gid,
    })
}

fn given_owner(
    alloc: Global,
    file: AccountFile,
    account: &Option<Account>,
    tree: &Tree,
) -> Result<Option<Owner>, StageFault>
    requires { file ≢ AccountFile.Shadow }
    ensures { result ≢ Err StageFault.NoMemory → result ≡ given_owner file tree.now account.now }
{
    match account {
        Some(account) => Ok(Some(owner(alloc, file, account, tree)?)),
        None => Ok(None),
    }
}

fn owner(
    alloc: Global,
    file: AccountFile,
    account: &Account,
    tree: &Tree,
) -> Result<Owner, StageFault>
    requires { file ≢ AccountFile.Shadow }
    ensures { result ≢ Err StageFault.NoMemory → result ≡ owner file tree.now account.now }
{
    match account {
        Account::Name(name) => {
            let path = file.path(alloc)?;
            number_at(alloc, file, name, path, tree)
        }
        Account::Number(owner) => Ok(*owner),
    }
}

/// The number of a name in the file of accounts, which stands at the path.
fn number_at(
    alloc: Global,
    file: AccountFile,
    name: &Text,
    path: Path,
    tree: &Tree,
) -> Result<Owner, StageFault>
    requires numbered { file ≢ AccountFile.Shadow }
    requires path { path ≡ account_path file }
    ensures { result ≢ Err StageFault.NoMemory → result ≡ number_at file name.now (node_at tree.now path) }
{
    match tree.get(&path) {
        None => Err(StageFault::Missing(path)),
        Some(Node::File { bytes, .. }) => number_in(alloc, file, name, path, bytes.as_slice()),
        Some(_) => Err(StageFault::NotAFile(path)),
    }
}

fn number_in(
    alloc: Global,
    file: AccountFile,
    name: &Text,
    path: Path,
    bytes: &[u8],
) -> Result<Owner, StageFault>
    requires numbered { file ≢ AccountFile.Shadow }
    requires path { path ≡ account_path file }
    ensures { result ≢ Err StageFault.NoMemory → result ≡ number_in file name.now bytes.now }
{
    if let Some(line) = account_check(file, bytes) {
        return Err(StageFault::BadLine(path, line));
    }
    match account_find(file, bytes, name.as_str()) {
        Some(number) => Ok(Owner::new(number)),
        None => Err(StageFault::NoAccount(name.clone()?)),
    }
}
