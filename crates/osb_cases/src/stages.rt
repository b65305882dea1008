use crate::cases::Case;
use crate::entries::Entry;
use crate::mistakes::{CaseFault, Mistake};
use crate::nodes::node_line;
use crate::parts::{bytes_of, text_of};
use crate::puts::{answer_of, listed_tree, path_of, read_path, tree_of};
use osb_base::{Bytes, NoMemory, Text};
use osb_recipe::{KindFault, StageKind};
use osb_tree::{Inputs, List, Node, OptionFault, Path, Shared, StageFault, Tree};
use serde_json::Value;
use std::alloc::{AllocError, Global};

/// What came of a stage over the tree that a case puts together.
#[derive(Drop)]
pub struct StageRun {
    answer: String,
    /// The tree after it, and none after a fault.
    tree: Option<Tree>,
}

/// Reads the case's stage, and applies it to the case's tree.
pub fn run_stage(alloc: Global, case: &Case) -> Result<StageRun, CaseFault> {
    let stage = text_of(alloc, case, case.needed("type")?)?;
    let entry = case.needed("options")?;
    let text = text_of(alloc, case, entry)?;
    let Ok(options) = Value::from_str(alloc, text.as_str()) else {
        return Err(Mistake::NotJson.at(entry.line));
    };
    if !options.is_object() {
        return Err(Mistake::NotAnObject.at(entry.line));
    }
    match StageKind::read(alloc, stage.as_str(), &options) {
        Ok(kind) => applied(alloc, &kind, tree(alloc, case)?, &inputs(alloc, case)?),
        Err(KindFault::UnknownStage) => answered(String::from_str(alloc, "unknown stage")?),
        Err(KindFault::Options(fault)) => answered(option_words(alloc, &fault)?),
        Err(KindFault::NoMemory) => Err(CaseFault::NoMemory(AllocError)),
    }
}

/// The tree after the case's puts, with its files of some content.
fn tree(alloc: Global, case: &Case) -> Result<Tree, CaseFault> {
    let mut tree = tree_of(alloc, case)?;
    for entry in case.template.iter().chain(case.own.iter()) {
        if entry.word.as_str() == "content" {
            put_content(alloc, case, entry, &mut tree)?;
        }
    }
    Ok(tree)
}

fn put_content(
    alloc: Global,
    case: &Case,
    entry: &Entry,
    tree: &mut Tree,
) -> Result<(), CaseFault> {
    let path = read_path(alloc, entry.name.as_str(), entry.line)?;
    let node = Node::File {
        mode: 0o644,
        uid: 0,
        gid: 0,
        bytes: Bytes::new(bytes_of(alloc, case, entry)?),
    };
    answer_of(tree.put(alloc, path, node))?;
    Ok(())
}

/// The trees that the stage reads beside its own.
fn inputs(alloc: Global, case: &Case) -> Result<Inputs, CaseFault> {
    let mut trees = Vec::new(alloc);
    for entry in case.template.iter().chain(case.own.iter()) {
        if entry.word.as_str() == "input" {
            add_input(alloc, case, entry, &mut trees)?;
        }
    }
    Ok(Inputs {
        trees: List::new(trees),
    })
}

fn add_input(
    alloc: Global,
    case: &Case,
    entry: &Entry,
    trees: &mut Vec<(Text, Shared<Tree>)>,
) -> Result<(), CaseFault> {
    let text = text_of(alloc, case, entry)?;
    let tree = listed_tree(alloc, text.as_str(), entry.line)?;
    trees.push((
        Text::new(alloc, entry.name.as_str())?,
        Shared::new(alloc, tree)?,
    ))?;
    Ok(())
}

fn applied(
    alloc: Global,
    kind: &StageKind,
    tree: Tree,
    inputs: &Inputs,
) -> Result<StageRun, CaseFault> {
    match kind.apply(alloc, tree, inputs) {
        Ok(tree) => Ok(StageRun {
            answer: String::from_str(alloc, "ok")?,
            tree: Some(tree),
        }),
        Err(fault) => answered(fault_words(alloc, &fault)?),
    }
}

/// A stage with a fault.
fn answered(answer: String) -> Result<StageRun, CaseFault> {
    Ok(StageRun { answer, tree: None })
}

fn option_words(alloc: Global, fault: &OptionFault) -> Result<String, CaseFault> {
    let (words, name) = match fault {
        OptionFault::Missing(name) => ("options 1 Missing", name),
        OptionFault::WrongKind(name) => ("options 2 WrongKind", name),
        OptionFault::OutOfRange(name) => ("options 3 OutOfRange", name),
        OptionFault::BadPath(name) => ("options 4 BadPath", name),
        OptionFault::UnknownMember(name) => ("options 5 UnknownMember", name),
        OptionFault::NoMemory => return Err(CaseFault::NoMemory(AllocError)),
    };
    Ok(format!(in alloc; "{words} {}", name.as_str())?)
}

pub fn fault_words(alloc: Global, fault: &StageFault) -> Result<String, CaseFault> {
    let text = match fault {
        StageFault::Missing(path) => at_path(alloc, "fault 1 Missing", path)?,
        StageFault::Exists(path) => at_path(alloc, "fault 2 Exists", path)?,
        StageFault::NotADir(path) => at_path(alloc, "fault 3 NotADir", path)?,
        StageFault::NotAFile(path) => at_path(alloc, "fault 4 NotAFile", path)?,
        StageFault::NoInput(name) => format!(in alloc; "fault 5 NoInput {}", name.as_str())?,
        StageFault::NoAccount(name) => format!(in alloc; "fault 6 NoAccount {}", name.as_str())?,
        StageFault::AccountExists(name) => {
            format!(in alloc; "fault 7 AccountExists {}", name.as_str())?
        }
        StageFault::NumberTaken(number) => format!(in alloc; "fault 8 NumberTaken {number}")?,
        StageFault::BadLine(path, line) => {
            let text = at_path(alloc, "fault 9 BadLine", path)?;
            format!(in alloc; "{text} {line}")?
        }
        StageFault::ToolMissing(path) => at_path(alloc, "fault 10 ToolMissing", path)?,
        StageFault::Asked(number) => format!(in alloc; "fault 11 Asked {number}")?,
        StageFault::TreeTooLarge => String::from_str(alloc, "fault 12 TreeTooLarge")?,
        StageFault::NoMemory => return Err(CaseFault::NoMemory(AllocError)),
    };
    Ok(text)
}

fn at_path(alloc: Global, words: &str, path: &Path) -> Result<String, NoMemory> {
    format!(in alloc; "{words} {}", path.text(alloc)?.as_str())
}

impl StageRun {
    /// What came at a section, and `None` where a stage has no such section.
    pub fn section(&self, alloc: Global, due: &Entry) -> Result<Option<Vec<u8>>, CaseFault> {
        let text = match (due.name.as_str(), &self.tree) {
            ("answer", _) => self.answer.clone()?,
            ("size" | "nodes" | "content", None) => String::from_str(alloc, "none")?,
            ("size", Some(tree)) => format!(in alloc; "{}", tree.size())?,
            ("nodes", Some(tree)) => node_lines(alloc, tree)?,
            ("content", Some(tree)) => return Ok(Some(content(alloc, tree, due)?)),
            _ => return Ok(None),
        };
        Ok(Some(text.into_bytes()))
    }
}

/// What a file holds, or `none` where there is no file.
fn content(alloc: Global, tree: &Tree, due: &Entry) -> Result<Vec<u8>, CaseFault> {
    match tree.get(&path_of(alloc, due)?) {
        Some(Node::File { bytes, .. }) => Ok(bytes.as_slice().to_vec(alloc)?),
        _ => Ok(String::from_str(alloc, "none")?.into_bytes()),
    }
}

/// What stands at each path, a line each.
fn node_lines(alloc: Global, tree: &Tree) -> Result<String, NoMemory> {
    let mut lines = String::new(alloc);
    let mut next = Some(Path::root(alloc));
    for _ in 0..tree.len() {
        let Some(path) = next else {
            return Ok(lines);
        };
        if let Some(node) = tree.get(&path) {
            lines.push_str(node_line(alloc, path.text(alloc)?.as_str(), node)?.as_str())?;
            lines.push('\n')?;
        }
        next = tree.next_path(&path)?;
    }
    Ok(lines)
}
