//! Files of `/etc`, and the texts that go there.
ghost use Rattle.std.specs.Prelude.{◌≡◌, ◌≢◌, Ok, Err, IfErr, IfOk, OnOk};
ghost use Rattle.std.specs.List.{list_all};
ghost use Rattle.osb_tree.specs.Nodes.{IsMode};
ghost use Rattle.osb_system.specs.Settings.{system_path, is_setting, is_line_byte, with_file};

use osb_stages::rules::put_leaf;
use osb_tree::{Bytes, NoMemory, Node, Path, PathFault, StageFault, Tree};
use std::alloc::{AllocError, Global};

/// What a system is told.
#[derive(Clone, Copy, Debug)]
pub enum SystemFile {
    /// hostname(5)
    Hostname,
    /// locale.conf(5)
    Locale,
    /// localtime(5)
    Localtime,
    /// vconsole.conf(5)
    Console,
    /// machine-id(5)
    MachineId,
}

impl SystemFile {
    pub(crate) fn path(self, alloc: Global) -> Result<Path, NoMemory>
        ensures { IfOk result (λ path. path ≡ system_path self) }
    {
        let text = match self {
            SystemFile::Hostname => "/etc/hostname",
            SystemFile::Locale => "/etc/locale.conf",
            SystemFile::Localtime => "/etc/localtime",
            SystemFile::Console => "/etc/vconsole.conf",
            SystemFile::MachineId => "/etc/machine-id",
        };
        match Path::read(alloc, text) {
            Ok(path) => Ok(path),
            Err(PathFault::NoMemory) => Err(AllocError),
            Err(_) => unreachable!(),
        }
    }
}

/// Writes a file of a text, with owners 0.
pub(crate) fn write_file(
    alloc: Global,
    file: SystemFile,
    mode: u32,
    text: Bytes,
    tree: &mut Tree,
) -> Result<(), StageFault>
    requires { IsMode mode }
    ensures ok { OnOk result (with_file file mode text tree.old ≡ Ok tree.new) }
    ensures fault { IfErr result (λ fault. fault ≢ StageFault.NoMemory → with_file file mode text tree.old ≡ Err fault) }
{
    let path = file.path(alloc)?;
    let node = Node::File {
        mode,
        uid: 0,
        gid: 0,
        bytes: text,
    };
    put_leaf(alloc, &path, node, tree)
}

/// 1 to 128 bytes within a line.
pub(crate) fn is_line(text: &str) -> bool
    ensures { result ≡ is_setting 128 is_line_byte text.now }
{
    !text.is_empty() && text.len() <= 128 && are_line_bytes(text.as_bytes())
}

fn are_line_bytes(bytes: &[u8]) -> bool
    ensures { result ≡ list_all is_line_byte bytes.now }
{
    bytes.iter().all(|b| *b != 0 && *b != b'\n')
}
