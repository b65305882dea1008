//! Trees exported build by build, and what became of each.
ghost use Rattle.std.specs.Prelude.{◌≡◌, ◌≤◌, IfOk, OnOk, OnErr};
ghost use Rattle.std.specs.List.{AllZip};
ghost use Rattle.osb_base.specs.Faults.{HasCause};
ghost use Rattle.osb_export.specs.Exports.{export_list, Appends, StopsExport};
ghost use Rattle.osb_answers.specs.Exports.{folder_of, placed_of, all_placed, IsOneExport, AreExported, IsAnswerOf};

use crate::answers::{Answer, ExportAnswer, Exported};
use osb_base::{Exporter, List, NoMemory};
use osb_export::{ExportFault, export};
use osb_ready::{Export, Unbuilt};
use osb_tree::Tree;
use std::alloc::Global;

/// Exports what builds have, build by build and export by export, and says what each build is answered. After an error
/// nothing was exported.
pub fn export_builds<E: Exporter>(
    alloc: Global,
    builds: Vec<Result<List<Export>, Unbuilt>>,
    exporter: &mut E,
) -> Result<Vec<Answer>, NoMemory>
    ensures answers { IfOk result (λ answers. AllZip IsAnswerOf builds.items answers.items) }
    ensures exported { IfOk result (λ answers. AreExported (record { before = E.done exporter.old; now = E.done exporter.new; faults = record { before = E.export_faults exporter.old; now = E.export_faults exporter.new } }) (all_placed 1 answers.items)) }
    ensures err { OnErr result (E.done exporter.new ≡ E.done exporter.old) }
    ensures later { OnErr result (E.export_faults exporter.old ≤ E.export_faults exporter.new) }
{
    let mut answers = Vec::with_capacity(alloc, builds.len())?;
    for build in builds {
        let place = answers.len() + 1;
        let answer = match build {
            Ok(exports) => export_build(alloc, place, exports, exporter),
            Err(unbuilt) => Answer::Unbuilt(unbuilt),
        };
        match answers.push(answer) {
            Ok(()) => {}
            Err(_) => unreachable!(),
        }
    }
    Ok(answers)
}

fn export_build<E: Exporter>(
    alloc: Global,
    place: usize,
    exports: List<Export>,
    exporter: &mut E,
) -> Answer
    ensures answer { IsAnswerOf (Ok exports) result }
    ensures exported { AreExported (record { before = E.done exporter.old; now = E.done exporter.new; faults = record { before = E.export_faults exporter.old; now = E.export_faults exporter.new } }) (placed_of place result) }
{
    match export_all(alloc, place, exports, exporter) {
        Ok(exported) => Answer::Exports(List::new(exported)),
        Err(_) => Answer::Unbuilt(Unbuilt::NoMemory),
    }
}

/// What became of each export, one after another. After an error nothing was exported.
fn export_all<E: Exporter>(
    alloc: Global,
    place: usize,
    exports: List<Export>,
    exporter: &mut E,
) -> Result<Vec<Exported>, NoMemory>
    ensures answer { IfOk result (λ exported. IsAnswerOf (Ok exports) (Answer.Exports exported.items)) }
    ensures exported { IfOk result (λ exported. AreExported (record { before = E.done exporter.old; now = E.done exporter.new; faults = record { before = E.export_faults exporter.old; now = E.export_faults exporter.new } }) (placed_of place (Answer.Exports exported.items))) }
    ensures err { OnErr result (E.done exporter.new ≡ E.done exporter.old) }
    ensures later { OnErr result (E.export_faults exporter.old ≤ E.export_faults exporter.new) }
{
    let exports = exports.into_vec();
    let mut exported = Vec::with_capacity(alloc, exports.len())?;
    for export in exports {
        let answer = export_one(alloc, place, &export, exporter);
        match exported.push(Exported { export, answer }) {
            Ok(()) => {}
            Err(_) => unreachable!(),
        }
    }
    Ok(exported)
}

/// Exports a tree into the folder of its build and pipeline.
fn export_one<E: Exporter>(
    alloc: Global,
    place: usize,
    export: &Export,
    exporter: &mut E,
) -> ExportAnswer
    ensures { IsOneExport (record { before = E.done exporter.old; now = E.done exporter.new; faults = record { before = E.export_faults exporter.old; now = E.export_faults exporter.new } }) place export.now result }
{
    let tree = export.tree.get();
    match export_into(alloc, place, export.name.as_str(), tree, exporter) {
        Ok(()) => ExportAnswer::Exported(tree.size()),
        Err(ExportFault::Outside) => ExportAnswer::Fault,
        Err(ExportFault::NoMemory) => ExportAnswer::NoMemory,
    }
}

fn export_into<E: Exporter>(
    alloc: Global,
    place: usize,
    name: &str,
    tree: &Tree,
    exporter: &mut E,
) -> Result<(), ExportFault>
    ensures ok { OnOk result (Appends (E.done exporter.old) (E.done exporter.new) (export_list (folder_of place name.now) tree.now)) }
    ensures err { OnErr result (StopsExport (E.done exporter.old) (E.done exporter.new) (export_list (folder_of place name.now) tree.now)) }
    ensures cause { HasCause ExportFault.Outside (E.export_faults exporter.old) (E.export_faults exporter.new) result }
{
    let folder = format!(in alloc; "{place}/{name}")?;
    export(alloc, tree, folder.as_str(), exporter)
}
