ghost use Rattle.std.specs.Prelude.{◌≡◌};
ghost use Rattle.osb_plan.specs.Bridge.{IsReady};

use osb_base::{Bytes, Digest, List};
use osb_manifest::Manifest;
use std::marker::Model;

/// One build: what is to be built of a manifest.
#[derive(Drop)]
pub struct Build {
    pub manifest: Manifest,
    /// The places of the pipelines, rising.
    pub needed: List<usize>,
    /// Which stages' trees are to be kept, by pipeline and by stage.
    pub marks: List<List<bool>>,
    /// The items that the pipelines use, by digest, in the order of their first uses.
    pub blobs: List<(Digest, Bytes)>,
}

/// A build that is ready: it has the places that some exports of a well-formed manifest need, and the items that these
/// pipelines want, each under its digest. Contracts see the build.
#[derive(Drop)]
pub struct ReadyBuild {
    build: Build,
}

impl Model for ReadyBuild {
    ghost use Rattle.osb_plan.specs.declared.builds.Build.{Build as BuildData};
    ghost use Rattle.osb_plan.specs.Bridge.{IsReady};

    ghost Value = { BuildData };

    ghost view = { λ r. r.build };

    ghost invariant = { λ r. IsReady r.build };
}

impl ReadyBuild {
    pub fn new(build: Build) -> Self
        requires ready { IsReady build }
        ensures build { result ≡ build }
    {
        ReadyBuild { build }
    }

    pub fn into_build(self) -> Build
        ensures build { result ≡ self }
        ensures ready { IsReady result }
    {
        let ReadyBuild { build } = self;
        build
    }
}
