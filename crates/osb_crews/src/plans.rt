//! The plan of the manifests that settings name.
ghost use Rattle.std.specs.Prelude.{IfOk};
ghost use Rattle.std.specs.List.{All};
ghost use Rattle.osb_recipe.specs.Plans.{IsSound};
ghost use Rattle.osb_plan.specs.Bridge.{IsReady};

use anyhow::{Result, bail};
use osb_base::{Bytes, NoMemory, SureFetcher};
use osb_plan::{Build, plan};
use osb_ready::prepare;
use osb_recipe::{Plan, Table};
use osb_words::Settings;
use std::alloc::Global;
use std::fs;

/// The bytes of each manifest.
pub fn read_manifests(rt: &HostRuntime, settings: &Settings) -> Result<Vec<Bytes>> {
    let mut read = Vec::new(rt.alloc());
    for name in settings.manifests.as_slice() {
        read.push(Bytes::new(fs::read(rt, name.as_str())?))?;
    }
    Ok(read)
}

/// The plan of the manifests with these bytes, which have their items themselves.
pub fn make_plan(alloc: Global, settings: &Settings, manifests: Vec<Bytes>) -> Result<Plan>
    ensures sound { IfOk result IsSound }
{
    let builds = builds(alloc, settings, manifests)?;
    Ok(plan(alloc, &builds, Table::new(alloc)?)?)
}

fn builds(alloc: Global, settings: &Settings, manifests: Vec<Bytes>) -> Result<Vec<Build>>
    ensures ready { IfOk result (λ builds. All IsReady builds.items) }
{
    let mut builds = Vec::new(alloc);
    for bytes in manifests {
        let mut fetchers = Vec::<SureFetcher>::new(alloc);
        match prepare(alloc, settings, Ok(Some(bytes)), &mut fetchers) {
            Ok(ready) => builds.push(ready.into_build())?,
            Err(_) => bail!("a manifest that has no build"),
        }
    }
    Ok(builds)
}
