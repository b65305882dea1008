ghost use Rattle.std.specs.Prelude.{◌≡◌, ℕ, [], ◌∷◌, IfOk, OnOk};
ghost use Rattle.std.specs.List.{flat_map};
ghost use Rattle.std.specs.Map.{keys_of, values_of};
ghost use Rattle.osb_manifest.specs.Wanted.{input_uses, stage_uses, pipeline_uses, each_once, wanted};

use crate::{Input, Manifest, Stage};
use osb_base::{Digest, List, NoMemory, Text};
use std::alloc::Global;
use std::collections::BTreeSet;
use std::marker::Model;

/// The digests of the items that the pipelines at some places use, each at its first use.
pub fn wanted(
    alloc: Global,
    manifest: &Manifest,
    needed: &[usize],
) -> Result<List<Digest>, NoMemory>
    ensures wanted { IfOk result (λ digests. digests ≡ wanted manifest.now needed.now) }
{
    let mut once = Once::new(alloc);
    for place in needed {
        if *place < manifest.pipelines.len() {
            once.add_stages(manifest.pipelines.pipeline(*place).stages.as_slice())?;
        }
    }
    Ok(once.into_list())
}

/// Digests in order, each once, which contracts see as the list of them.
#[derive(Drop)]
struct Once {
    digests: Vec<Digest>,
    seen: BTreeSet<Digest>,
}

impl Model for Once {
    ghost use Rattle.std.specs.Prelude.{◌≡◌, ℕ, List};
    ghost use Rattle.std.specs.BTreeSet.{contains};
    ghost use Rattle.std.specs.Cmp.Lexicographic.{slice_cmp};
    ghost use Rattle.std.specs.Ordering.{nat_cmp};
    ghost use Rattle.osb_manifest.specs.Wanted.{has_digest};

    ghost Value = { List (List ℕ) };

    ghost view = { λ o. o.digests.items };

    ghost invariant = { λ o. (digest : List ℕ) → contains (slice_cmp nat_cmp) o.seen digest ≡ has_digest o.digests.items digest };
}

impl Once {
    fn new(alloc: Global) -> Self
        ensures { result ≡ [] }
    {
        Once {
            digests: Vec::new(alloc),
            seen: BTreeSet::new(alloc),
        }
    }

    fn into_list(self) -> List<Digest>
        ensures { result ≡ self }
    {
        List::new(self.digests)
    }

    fn add_stages(&mut self, stages: &[Stage]) -> Result<(), NoMemory>
        ensures { OnOk result (self.new ≡ each_once self.old (flat_map stage_uses stages.now)) }
    {
        for stage in stages {
            self.add_inputs(stage.inputs.as_slice())?;
        }
        Ok(())
    }

    fn add_inputs(&mut self, inputs: &[(Text, Input)]) -> Result<(), NoMemory>
        ensures { OnOk result (self.new ≡ each_once self.old (flat_map input_uses (values_of inputs.now))) }
    {
        for (_, input) in inputs {
            if let Input::Files(files) = input {
                self.add_items(files.as_slice())?;
            }
        }
        Ok(())
    }

    fn add_items(&mut self, files: &[(Digest, Text)]) -> Result<(), NoMemory>
        ensures { OnOk result (self.new ≡ each_once self.old (keys_of files.now)) }
    {
        for (digest, _) in files {
            self.add(digest)?;
        }
        Ok(())
    }

    /// Adds a digest that is not there yet.
    fn add(&mut self, digest: &Digest) -> Result<(), NoMemory>
        ensures { OnOk result (self.new ≡ each_once self.old (digest.now ∷ [])) }
    {
        if self.seen.contains(digest) {
            return Ok(());
        }
        let listed = digest.clone()?;
        let kept = digest.clone()?;
        self.digests.reserve(1)?;
        self.seen.insert(kept)?;
        match self.digests.push(listed) {
            Ok(()) => Ok(()),
            Err(_) => unreachable!(),
        }
    }
}
