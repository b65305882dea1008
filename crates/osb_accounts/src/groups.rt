//! `org.osbuild.groups`: adds groups.
ghost use Rattle.std.specs.Prelude.{◌≡◌, ◌≢◌, Ok, Err, IfErr, IfOk, OnOk, false};
ghost use Rattle.serde_json.specs.View.{view};
ghost use Rattle.osb_stages.specs.Readers.{IsObject};
ghost use Rattle.osb_stages.specs.Rules.{in_order};
ghost use Rattle.osb_tree.specs.Accounts.{account_path};
ghost use Rattle.osb_accounts.specs.Kept.{FileIsKept};
ghost use Rattle.osb_accounts.specs.Groups.{group_options, groups_options, group_line, with_group, groups};

use crate::files::{read_lines, write_lines};
use crate::numbers::new_number;
use crate::pieces::{copied, decimal};
use crate::{Line, Lines};
use osb_stages::members::if_there;
use osb_stages::owners::{AccountName, Owner};
use osb_stages::readers::{Item, no_others, required_entries};
use osb_tree::accounts::AccountFile;
use osb_tree::{Bytes, Inputs, List, NoMemory, OptionFault, StageFault, Text, Tree};
use serde_json::Value;
use std::alloc::Global;

/// What a group gets.
#[derive(Debug, Drop)]
pub struct Group {
    /// Its number; the least free one where it is not given.
    pub gid: Option<Owner>,
}

#[derive(Debug, Drop)]
pub struct Options {
    pub groups: List<(AccountName, Group)>,
}

impl Item for Group {
    ghost item_of = { group_options };

    fn read(alloc: Global, options: &Value) -> Result<Self, OptionFault> {
        let gid = if_there(alloc, "gid", options)?;
        no_others(alloc, &["gid"], options)?;
        Ok(Group { gid })
    }
}

pub fn read_options(alloc: Global, value: &Value) -> Result<Options, OptionFault>
    requires { IsObject (view value.now) }
    ensures options { result ≢ Err OptionFault.NoMemory → result ≡ groups_options (view value.now) }
{
    let groups = required_entries(alloc, "groups", value)?;
    no_others(alloc, &["groups"], value)?;
    Ok(Options { groups })
}

/// Adds the groups in order, up to the first fault. After a fault the tree is gone.
pub fn apply(
    alloc: Global,
    options: &Options,
    mut tree: Tree,
    _inputs: &Inputs,
) -> Result<Tree, StageFault>
    ensures effect { result ≢ Err StageFault.NoMemory → result ≡ groups options.now tree }
    ensures kept { IfOk result (λ after. FileIsKept (λ line. false) (account_path AccountFile.Group) tree after) }
{
    let mut lines = read_lines(alloc, AccountFile::Group, &tree)?;
    add_groups(alloc, options.groups.as_slice(), &mut lines)?;
    write_lines(alloc, AccountFile::Group, &lines, &mut tree)?;
    Ok(tree)
}

fn add_groups(
    alloc: Global,
    groups: &[(AccountName, Group)],
    lines: &mut Lines,
) -> Result<(), StageFault>
    ensures ok { OnOk result (in_order with_group groups.now lines.old ≡ Ok lines.new) }
    ensures fault { IfErr result (λ fault. fault ≢ StageFault.NoMemory → in_order with_group groups.now lines.old ≡ Err fault) }
{
    for group in groups {
        add_group(alloc, group, lines)?;
    }
    Ok(())
}

fn add_group(
    alloc: Global,
    entry: &(AccountName, Group),
    lines: &mut Lines,
) -> Result<(), StageFault>
    ensures ok { OnOk result (with_group entry.now lines.old ≡ Ok lines.new) }
    ensures fault { IfErr result (λ fault. fault ≢ StageFault.NoMemory → with_group entry.now lines.old ≡ Err fault) }
{
    let (name, group) = entry;
    if lines.place_of(name.as_str().as_bytes()).is_some() {
        return Err(StageFault::AccountExists(Text::new(alloc, name.as_str())?));
    }
    let gid = new_number(alloc, &group.gid, lines)?;
    let line = group_line(alloc, name, gid)?;
    lines.push(line)?;
    Ok(())
}

/// The line of a group without members.
pub(crate) fn group_line(alloc: Global, name: &AccountName, gid: Owner) -> Result<Line, NoMemory>
    ensures { IfOk result (λ line. line ≡ group_line name.now gid) }
{
    let mut fields = Vec::new(alloc);
    fields.push(copied(alloc, name.as_str().as_bytes())?)?;
    fields.push(copied(alloc, b"x")?)?;
    fields.push(decimal(alloc, gid.number())?)?;
    fields.push(Bytes::new(Vec::new(alloc)))?;
    Ok(Line::new(fields))
}
