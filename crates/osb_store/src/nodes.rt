//! One pair of a tree's listing, from its bytes.
ghost use Rattle.std.specs.Prelude.{◌≡◌, ◌≢◌};
ghost use Rattle.osb_store.specs.Entries.{GivesSuch, HasPath, pair_at};
ghost use Rattle.osb_store.specs.Reading.{path_at, node_of, utf8_of};
ghost use Rattle.osb_store.specs.Steps.{Gives};
ghost use Rattle.osb_tree.specs.Paths.{IsPath};

use crate::fields::{byte_of, field_of, small_number_of, text_of};
use crate::steps::Stop;
use osb_base::{Bytes, Text};
use osb_tree::{Node, Path, PathFault};
use std::alloc::Global;

/// A path, by just the text that it has.
fn path_of(alloc: Global, bytes: &[u8]) -> Result<(Path, &[u8]), Stop>
    ensures { GivesSuch IsPath (λ x. (x.0, x.1.now)) result (path_at bytes.now) }
{
    let (text, rest) = text_of(bytes)?;
    match Path::read(alloc, text) {
        Ok(path) => {
            let own = path.text(alloc)?;
            if own.as_str() == text {
                Ok((path, rest))
            } else {
                Err(Stop::Broken)
            }
        }
        Err(fault) => Err(stop_of(fault)),
    }
}

fn stop_of(fault: PathFault) -> Stop
    ensures { result ≡ Stop.Broken → fault ≢ PathFault.NoMemory }
{
    match fault {
        PathFault::NoMemory => Stop::Memory,
        _ => Stop::Broken,
    }
}

/// What stands at a path, behind the byte that tells its kind.
fn placed(
    alloc: Global,
    tag: u8,
    owned: (u32, u32, u32),
    path: Path,
    content: &[u8],
) -> Result<(Path, Node), Stop>
    ensures { Gives (λ pair. pair) result (node_of tag (owned.0, (owned.1, (owned.2, (path, content.now))))) }
{
    let (mode, uid, gid) = owned;
    match tag {
        1 => {
            if content.is_empty() {
                Ok((path, Node::Dir { mode, uid, gid }))
            } else {
                Err(Stop::Broken)
            }
        }
        2 => {
            let bytes = Bytes::new(Vec::from_slice(alloc, content)?);
            Ok((
                path,
                Node::File {
                    mode,
                    uid,
                    gid,
                    bytes,
                },
            ))
        }
        3 => {
            if mode != 511 {
                return Err(Stop::Broken);
            }
            let target = target_of(alloc, content)?;
            Ok((path, Node::Link { uid, gid, target }))
        }
        _ => Err(Stop::Broken),
    }
}

fn target_of(alloc: Global, content: &[u8]) -> Result<Text, Stop>
    ensures { Gives (λ target. target) result (utf8_of content.now) }
{
    match std::str::from_utf8(content) {
        Ok(target) => Ok(Text::new(alloc, target)?),
        Err(_) => Err(Stop::Broken),
    }
}

#[tactic(auto, unfolding(crate::specs::Entries::pair_at))]
pub(crate) fn pair_of(alloc: Global, bytes: &[u8]) -> Result<((Path, Node), &[u8]), Stop>
    ensures { GivesSuch HasPath (λ x. (x.0, x.1.now)) result (pair_at bytes.now) }
{
    let (tag, rest) = byte_of(bytes)?;
    let (mode, rest) = small_number_of(rest)?;
    let (uid, rest) = small_number_of(rest)?;
    let (gid, rest) = small_number_of(rest)?;
    let (path, rest) = path_of(alloc, rest)?;
    let (content, rest) = field_of(rest)?;
    let pair = placed(alloc, tag, (mode, uid, gid), path, content)?;
    Ok((pair, rest))
}
