//! Members of groups.
ghost use Rattle.std.specs.Prelude.{◌≡◌, ◌≢◌, Ok, Err, IfErr, IfOk, OnOk};
ghost use Rattle.osb_stages.specs.Rules.{in_order};
ghost use Rattle.osb_accounts.specs.Users.{is_member, with_member, with_membership};

use crate::Lines;
use crate::pieces::copied;
use osb_stages::owners::AccountName;
use osb_tree::{Bytes, NoMemory, StageFault, Text};
use std::alloc::Global;

/// Makes a user a member of groups in order, up to the first that is not there.
pub(crate) fn join_groups(
    alloc: Global,
    name: &AccountName,
    groups: &[AccountName],
    lines: &mut Lines,
) -> Result<(), StageFault>
    ensures ok { OnOk result (in_order (with_membership name.now) groups.now lines.old ≡ Ok lines.new) }
    ensures fault { IfErr result (λ fault. fault ≢ StageFault.NoMemory → in_order (with_membership name.now) groups.now lines.old ≡ Err fault) }
{
    for group in groups {
        join_group(alloc, name, group, lines)?;
    }
    Ok(())
}

fn join_group(
    alloc: Global,
    name: &AccountName,
    group: &AccountName,
    lines: &mut Lines,
) -> Result<(), StageFault>
    ensures ok { OnOk result (with_membership name.now group.now lines.old ≡ Ok lines.new) }
    ensures fault { IfErr result (λ fault. fault ≢ StageFault.NoMemory → with_membership name.now group.now lines.old ≡ Err fault) }
{
    let Some(place) = lines.place_of(group.as_str().as_bytes()) else {
        return Err(StageFault::NoAccount(Text::new(alloc, group.as_str())?));
    };
    let members = with_member(
        alloc,
        name.as_str().as_bytes(),
        lines.line_at(place).field(3),
    )?;
    lines.set_field(place, 3, members);
    Ok(())
}

/// The list of members with a name at its end, unless it is there.
fn with_member(alloc: Global, name: &[u8], members: &[u8]) -> Result<Bytes, NoMemory>
    ensures { IfOk result (λ list. list ≡ with_member name.now members.now) }
{
    let mut list = members.to_vec(alloc)?;
    if is_member(name, members) {
        return Ok(Bytes::new(list));
    }
    if !members.is_empty() {
        list.push(b',')?;
    }
    list.extend_from_slice(name)?;
    Ok(Bytes::new(list))
}

fn is_member(name: &[u8], members: &[u8]) -> bool
    ensures { result ≡ is_member name.now members.now }
{
    members.split(|b| *b == b',').any(|member| member == name)
}
