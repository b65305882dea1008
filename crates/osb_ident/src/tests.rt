use crate::{inspect_text, stage_ids};
use osb_base::{Digest, List, NoMemory, Text};
use osb_files::noop;
use osb_manifest::{Input, Manifest, Pipeline, Pipelines, Stage};
use osb_recipe::StageKind;
use osb_sources::Items;
use osb_tree::Shared;
use std::alloc::Global;
use std::test::Fail;

/// What `vectors/idents.py` gives for the manifest of the test.
const LINES: &str = "empty - null
build 0 beda46704765a47e6d4f44aff22168ae36866c9c0e6e11552b775b77776b2969
os 0 4afdf602e319eb5c5d60aca3b0cc3ca55bbaa128eb620feedec3eef5b859963d
os 1 13f9a8af89e27a28898939268aea5cf44ef2711eda363318e3820161926b2894
";

/// The SHA-256 of no bytes.
const NO_BYTES: [u8; 32] = [
    0xe3, 0xb0, 0xc4, 0x42, 0x98, 0xfc, 0x1c, 0x14, 0x9a, 0xfb, 0xf4, 0xc8, 0x99, 0x6f, 0xb9, 0x24,
    0x27, 0xae, 0x41, 0xe4, 0x64, 0x9b, 0x93, 0x4c, 0xa4, 0x95, 0x99, 0x1b, 0x78, 0x52, 0xb8, 0x55,
];

fn stage(
    alloc: Global,
    type_text: &str,
    options: &str,
    inputs: Vec<(Text, Input)>,
) -> Result<Stage, NoMemory> {
    Ok(Stage {
        kind: Shared::new(alloc, StageKind::Noop(noop::Options {}))?,
        type_text: Text::new(alloc, type_text)?,
        options_text: Text::new(alloc, options)?,
        inputs: List::new(inputs),
    })
}

fn tree(alloc: Global, name: &str, place: usize, options: &str) -> Result<(Text, Input), NoMemory> {
    let input = Input::Tree(place, Text::new(alloc, options)?);
    Ok((Text::new(alloc, name)?, input))
}

fn file(alloc: Global, name: &str) -> Result<(Text, Input), NoMemory> {
    let files = vec![in alloc; (Digest::of(NO_BYTES), Text::new(alloc, "{}")?)]?;
    Ok((Text::new(alloc, name)?, Input::Files(List::new(files))))
}

fn os_stages(alloc: Global) -> Result<Vec<Stage>, NoMemory> {
    let inputs = vec![in alloc; file(alloc, "files")?, tree(alloc, "é", 1, r#"{"x": 1}"#)?]?;
    let first = stage(alloc, "org.osbuild.noop", r#"{"a": 1}"#, inputs)?;
    let inputs = vec![in alloc; tree(alloc, "none", 0, "{}")?]?;
    let options = r#"{"paths": [{"path": "/usr"}]}"#;
    let second = stage(alloc, "org.osbuild.mkdir", options, inputs)?;
    Ok(vec![in alloc; first, second]?)
}

fn pipelines(alloc: Global) -> Result<Pipelines, NoMemory> {
    let pipeline = |build, stages| Pipeline {
        build,
        stages: List::new(stages),
    };
    let noop = stage(alloc, "org.osbuild.noop", "{}", Vec::new(alloc))?;
    let pipelines = vec![in alloc;
        (
            String::from_str(alloc, "empty")?,
            pipeline(None, Vec::new(alloc))
        ),
        (
            String::from_str(alloc, "build")?,
            pipeline(None, vec![in alloc; noop]?)
        ),
        (
            String::from_str(alloc, "os")?,
            pipeline(Some(1), os_stages(alloc)?)
        ),
    ]?;
    Pipelines::new(alloc, pipelines)
}

#[test]
fn builds_and_inputs_stand_in_identifiers(rt: HostRuntime) -> Result<(), Fail> {
    let alloc = rt.alloc();
    let items = Items {
        inline: List::new(Vec::new(alloc)),
        curl: List::new(Vec::new(alloc)),
    };
    let manifest = Manifest {
        pipelines: pipelines(alloc)?,
        items,
    };
    let ids = stage_ids(alloc, &manifest)?;
    let text = inspect_text(alloc, &manifest, &ids)?;
    assert_eq!(rt; text.as_slice(), LINES.as_bytes());
    Ok(())
}
