//! `org.osbuild.timezone`: sets the time zone.
ghost use Rattle.std.specs.Prelude.{◌≡◌, ◌≢◌, Some, None, Ok, Err, IfOk, if◌then◌else◌};
ghost use Rattle.serde_json.specs.View.{view};
ghost use Rattle.osb_stages.specs.Readers.{IsObject};
ghost use Rattle.osb_tree.specs.Nodes.{InRange};
ghost use Rattle.osb_stages.specs.Rules.{link};
ghost use Rattle.osb_system.specs.Zones.{is_zone_byte, is_zone};
ghost use Rattle.osb_system.specs.Timezone.{timezone_options, zone_target, timezone};

use crate::settings::SystemFile;
use osb_stages::readers::{no_others, required_text};
use osb_stages::rules::put_leaf;
use osb_tree::{Inputs, NoMemory, Node, OptionFault, StageFault, Text, Tree};
use serde_json::Value;
use std::alloc::Global;
use std::marker::Model;

/// The name of a time zone, as `Europe/Berlin`, which contracts see as its bytes.
#[derive(Debug, Drop)]
pub struct Zone {
    text: Text,
}

impl Model for Zone {
    ghost use Rattle.std.specs.Prelude.{ℕ, List, IsTrue};
    ghost use Rattle.osb_system.specs.Zones.{is_zone};

    ghost Value = { List ℕ };

    ghost view = { λ z. z.text };

    ghost invariant = { λ z. IsTrue (is_zone z.text) };
}

#[derive(Debug, Drop)]
pub struct Options {
    /// 1 to 128 letters, digits, `_`, `+`, `-` and `/`.
    pub zone: Zone,
}

impl Zone {
    /// The text, where a zone can have that name.
    pub fn new(text: Text) -> Option<Self>
        ensures zone { result ≡ (if is_zone text then Some text else None) }
    {
        if is_zone(text.as_str().as_bytes()) {
            Some(Zone { text })
        } else {
            None
        }
    }

    /// A link to its description, with owners 0.
    fn link(&self, alloc: Global) -> Result<Node, NoMemory>
        ensures link { IfOk result (λ node. node ≡ link (zone_target self.now)) }
        ensures in_range { IfOk result InRange }
    {
        let target = format!(in alloc; "../usr/share/zoneinfo/{}", self.text.as_str())?;
        Ok(Node::Link {
            uid: 0,
            gid: 0,
            target: Text::from(target),
        })
    }
}

pub fn read_options(alloc: Global, value: &Value) -> Result<Options, OptionFault>
    requires { IsObject (view value.now) }
    ensures options { result ≢ Err OptionFault.NoMemory → result ≡ timezone_options (view value.now) }
{
    let text = required_text(alloc, "zone", value)?;
    let Some(zone) = Zone::new(text) else {
        return Err(OptionFault::OutOfRange(Text::new(alloc, "zone")?));
    };
    no_others(alloc, &["zone"], value)?;
    Ok(Options { zone })
}

/// Makes `/etc/localtime` a link. After a fault the tree is gone.
pub fn apply(
    alloc: Global,
    options: &Options,
    mut tree: Tree,
    _inputs: &Inputs,
) -> Result<Tree, StageFault>
    ensures effect { result ≢ Err StageFault.NoMemory → result ≡ timezone options.now tree }
{
    let path = SystemFile::Localtime.path(alloc)?;
    let link = options.zone.link(alloc)?;
    put_leaf(alloc, &path, link, &mut tree)?;
    Ok(tree)
}

fn is_zone(zone: &[u8]) -> bool
    ensures { result ≡ is_zone zone.now }
{
    !zone.is_empty() && zone.len() <= 128 && zone.iter().all(|b| is_zone_byte(*b))
}

fn is_zone_byte(byte: u8) -> bool
    ensures { result ≡ is_zone_byte byte }
{
    byte.is_ascii_alphanumeric() || byte == b'_' || byte == b'+' || byte == b'-' || byte == b'/'
}
