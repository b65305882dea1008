use crate::cases::Case;
use crate::entries::Entry;
use crate::mistakes::{CaseFault, Mistake};
use crate::nodes::node_line;
use crate::parts::text_of;
use crate::plain::agreement;
use crate::random::add_random;
use osb_base::NoMemory;
use osb_tree::{Bytes, Node, Path, PathFault, PutFault, Text, Tree};
use std::alloc::{AllocError, Global};

/// One put, and the path at which trees are compared after it.
#[derive(Drop)]
pub struct Put {
    /// The number of the line that gives it.
    pub line: usize,
    pub path: Path,
    pub node: Node,
    pub look_up: Path,
}

/// What a tree is after puts, and what they were answered.
#[derive(Drop)]
pub struct AfterPuts {
    tree: Tree,
    answers: String,
    last: String,
}

/// Puts what a case gives into the empty tree, one after another.
pub fn make_puts(alloc: Global, case: &Case) -> Result<AfterPuts, CaseFault> {
    let mut tree = Tree::empty(alloc)?;
    let mut answers = String::new(alloc);
    let mut last = String::from_str(alloc, "none")?;
    for put in puts(alloc, case)? {
        let answer = put_into(alloc, put, &mut tree)?;
        answers.push_str(answer)?;
        answers.push('\n')?;
        last = String::from_str(alloc, answer)?;
    }
    Ok(AfterPuts {
        tree,
        answers,
        last,
    })
}

/// The tree after the puts of a case.
pub fn tree_of(alloc: Global, case: &Case) -> Result<Tree, CaseFault> {
    Ok(make_puts(alloc, case)?.tree)
}

/// The tree after the puts that a text lists.
pub fn listed_tree(alloc: Global, text: &str, line: usize) -> Result<Tree, CaseFault> {
    let mut puts = Vec::new(alloc);
    add_listed(alloc, text, line, &mut puts)?;
    let mut tree = Tree::empty(alloc)?;
    for put in puts {
        put_into(alloc, put, &mut tree)?;
    }
    Ok(tree)
}

impl AfterPuts {
    /// What came at a section, and `None` where puts have no such section.
    pub fn section(
        &self,
        alloc: Global,
        case: &Case,
        due: &Entry,
    ) -> Result<Option<String>, CaseFault> {
        let text = match due.name.as_str() {
            "answers" => self.answers.clone()?,
            "last" => self.last.clone()?,
            "size" => format!(in alloc; "{}", self.tree.size())?,
            "paths" => format!(in alloc; "{}", self.tree.len())?,
            "listing" => listing(alloc, &self.tree)?,
            "after" => path_after(alloc, &self.tree, &path_of(alloc, due)?)?,
            "at" => node_at(alloc, &self.tree, &path_of(alloc, due)?)?,
            "plain" => agreement(alloc, case)?,
            _ => return Ok(None),
        };
        Ok(Some(text))
    }
}

/// Makes a put, and says what it was answered.
fn put_into(alloc: Global, put: Put, tree: &mut Tree) -> Result<&'static str, CaseFault> {
    if !put.node.in_range() {
        return Err(Mistake::NodeOutOfRange.at(put.line));
    }
    answer_of(tree.put(alloc, put.path, put.node))
}

pub fn answer_of(answered: Result<(), PutFault>) -> Result<&'static str, CaseFault> {
    match answered {
        Ok(()) => Ok("ok"),
        Err(PutFault::ParentMissing) => Ok("fault 1 ParentMissing"),
        Err(PutFault::ParentNotDir) => Ok("fault 2 ParentNotDir"),
        Err(PutFault::NotEmpty) => Ok("fault 3 NotEmpty"),
        Err(PutFault::TooLarge) => Ok("fault 4 TooLarge"),
        Err(PutFault::NoMemory) => Err(CaseFault::NoMemory(AllocError)),
    }
}

/// The texts of all paths, a line each.
fn listing(alloc: Global, tree: &Tree) -> Result<String, NoMemory> {
    let mut lines = String::new(alloc);
    let mut next = Some(Path::root(alloc));
    for _ in 0..tree.len() {
        let Some(path) = next else {
            return Ok(lines);
        };
        lines.push_str(path.text(alloc)?.as_str())?;
        lines.push('\n')?;
        next = tree.next_path(&path)?;
    }
    Ok(lines)
}

fn path_after(alloc: Global, tree: &Tree, path: &Path) -> Result<String, NoMemory> {
    match tree.next_path(path)? {
        Some(next) => String::from_str(alloc, next.text(alloc)?.as_str()),
        None => String::from_str(alloc, "none"),
    }
}

fn node_at(alloc: Global, tree: &Tree, path: &Path) -> Result<String, NoMemory> {
    match tree.get(path) {
        Some(node) => node_line(alloc, path.text(alloc)?.as_str(), node),
        None => String::from_str(alloc, "none"),
    }
}

/// The path at which a section is asked.
pub fn path_of(alloc: Global, due: &Entry) -> Result<Path, CaseFault> {
    read_path(alloc, due.argument.as_str(), due.line)
}

/// The path that a text of this line gives.
pub fn read_path(alloc: Global, text: &str, line: usize) -> Result<Path, CaseFault> {
    match Path::read(alloc, text) {
        Ok(path) => Ok(path),
        Err(PathFault::NoMemory) => Err(CaseFault::NoMemory(AllocError)),
        Err(_) => Err(Mistake::NotAPath.at(line)),
    }
}

/// The puts that a case gives: those of its lines, and then the random ones.
pub fn puts(alloc: Global, case: &Case) -> Result<Vec<Put>, CaseFault> {
    let mut puts = Vec::new(alloc);
    if let Some(entry) = case.find("puts", "") {
        let text = text_of(alloc, case, entry)?;
        add_listed(alloc, text.as_str(), entry.line, &mut puts)?;
    }
    if let Some(entry) = case.find("random", "") {
        add_random(alloc, entry, &mut puts)?;
    }
    Ok(puts)
}

fn add_listed(
    alloc: Global,
    text: &str,
    line: usize,
    puts: &mut Vec<Put>,
) -> Result<(), CaseFault> {
    for content in text.lines() {
        puts.push(listed_put(alloc, content, line)?)?;
    }
    Ok(())
}

/// The put that a line stands for.
pub fn listed_put(alloc: Global, content: &str, line: usize) -> Result<Put, CaseFault> {
    let words: Vec<&str> = content.split(' ').collect(alloc)?;
    let (path, node) = match words.as_slice() {
        ["dir", path] => (path, directory("0755", "0", "0", line)?),
        ["dir", path, mode, uid, gid] => (path, directory(mode, uid, gid, line)?),
        ["file", path, length] => (path, file(alloc, length, ["0644", "0", "0"], line)?),
        ["file", path, length, mode, uid, gid] => {
            (path, file(alloc, length, [*mode, *uid, *gid], line)?)
        }
        ["link", path, target] => (path, link(alloc, target, "0", "0", line)?),
        ["link", path, target, uid, gid] => (path, link(alloc, target, uid, gid, line)?),
        _ => return Err(Mistake::NotAPut.at(line)),
    };
    let path = read_path(alloc, path, line)?;
    Ok(Put {
        line,
        look_up: path.clone()?,
        path,
        node,
    })
}

fn directory(mode: &str, uid: &str, gid: &str, line: usize) -> Result<Node, CaseFault> {
    Ok(Node::Dir {
        mode: mode_of(mode, line)?,
        uid: owner_of(uid, line)?,
        gid: owner_of(gid, line)?,
    })
}

/// A file of this many zero bytes, with mode and owners.
fn file(
    alloc: Global,
    length: &str,
    [mode, uid, gid]: [&str; 3],
    line: usize,
) -> Result<Node, CaseFault> {
    let Ok(length) = length.parse::<usize>() else {
        return Err(Mistake::NoNumber.at(line));
    };
    Ok(Node::File {
        mode: mode_of(mode, line)?,
        uid: owner_of(uid, line)?,
        gid: owner_of(gid, line)?,
        bytes: Bytes::new(vec![in alloc; 0u8; length]?),
    })
}

fn link(alloc: Global, target: &str, uid: &str, gid: &str, line: usize) -> Result<Node, CaseFault> {
    Ok(Node::Link {
        uid: owner_of(uid, line)?,
        gid: owner_of(gid, line)?,
        target: Text::new(alloc, target)?,
    })
}

fn mode_of(text: &str, line: usize) -> Result<u32, CaseFault> {
    match u32::from_str_radix(text, 8) {
        Ok(mode) => Ok(mode),
        Err(_) => Err(Mistake::NoNumber.at(line)),
    }
}

fn owner_of(text: &str, line: usize) -> Result<u32, CaseFault> {
    match text.parse::<u32>() {
        Ok(owner) => Ok(owner),
        Err(_) => Err(Mistake::NoNumber.at(line)),
    }
}
