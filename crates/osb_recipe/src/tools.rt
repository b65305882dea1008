ghost use Rattle.std.specs.Prelude.{◌≡◌, Some, IfOk, option_copied};
ghost use Rattle.osb_recipe.specs.Tools.{tool_path, tools_of, is_program, first_lacking, missing_tool};

use crate::StageKind;
use osb_tree::{NoMemory, Node, Path, PathFault, Tree};
use std::alloc::{AllocError, Global};

/// A program that stages run.
#[derive(Clone, Copy, Debug, PartialEq, Eq)]
pub enum Tool {
    /// cp(1)
    Copy,
    /// chmod(1)
    ChangeMode,
    /// chown(1)
    ChangeOwner,
    /// groupadd(8)
    AddGroup,
    /// useradd(8)
    AddUser,
}

impl Tool {
    /// Where a tree has it.
    pub fn path(self, alloc: Global) -> Result<Path, NoMemory>
        ensures path { IfOk result (λ path. path ≡ tool_path self) }
    {
        let text = match self {
            Tool::Copy => "/usr/bin/cp",
            Tool::ChangeMode => "/usr/bin/chmod",
            Tool::ChangeOwner => "/usr/bin/chown",
            Tool::AddGroup => "/usr/sbin/groupadd",
            Tool::AddUser => "/usr/sbin/useradd",
        };
        match Path::read(alloc, text) {
            Ok(path) => Ok(path),
            Err(PathFault::NoMemory) => Err(AllocError),
            Err(_) => unreachable!(),
        }
    }
}

/// The first program that a stage needs and the tree that it runs in lacks. Without such a tree it needs none.
pub fn missing_tool(
    alloc: Global,
    kind: &StageKind,
    build: Option<&Tree>,
) -> Result<Option<Path>, NoMemory>
    ensures tool { IfOk result (λ tool. tool ≡ missing_tool kind.now (option_copied build.entry)) }
{
    match build {
        Some(tree) => first_lacking(alloc, tree, tools_of(kind)),
        None => Ok(None),
    }
}

fn tools_of(kind: &StageKind) -> &'static [Tool]
    ensures { result.now ≡ tools_of kind.now }
{
    match kind {
        StageKind::Copy(_) => &[Tool::Copy],
        StageKind::Chmod(_) => &[Tool::ChangeMode],
        StageKind::Chown(_) => &[Tool::ChangeOwner],
        StageKind::Groups(_) => &[Tool::AddGroup],
        StageKind::Users(_) => &[Tool::AddUser],
        StageKind::Noop(_)
        | StageKind::Error(_)
        | StageKind::Mkdir(_)
        | StageKind::Symlink(_)
        | StageKind::Hostname(_)
        | StageKind::Locale(_)
        | StageKind::Timezone(_)
        | StageKind::Keymap(_)
        | StageKind::MachineId(_) => &[],
    }
}

fn first_lacking(alloc: Global, build: &Tree, tools: &[Tool]) -> Result<Option<Path>, NoMemory>
    ensures { IfOk result (λ tool. tool ≡ first_lacking build.now tools.now) }
{
    for tool in tools {
        let path = tool.path(alloc)?;
        if !is_program(build.get(&path)) {
            return Ok(Some(path));
        }
    }
    Ok(None)
}

/// Whether it is a file that its owner, its group or others may run.
fn is_program(node: Option<&Node>) -> bool
    ensures { result ≡ is_program (option_copied node.entry) }
{
    match node {
        Some(Node::File { mode, .. }) => *mode & 0o111 != 0,
        _ => false,
    }
}
