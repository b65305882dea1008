use crate::cases::Case;
use crate::entries::{Entry, first_word};
use crate::mistakes::{CaseFault, Mistake};
use crate::parts::text_of;
use crate::puts::{Put, listed_put, tree_of};
use osb_base::NoMemory;
use osb_tree::{CHUNK_PAIRS, Chunk, Node, Path, Shared, Tree};
use std::alloc::Global;
use std::fmt::Write;

/// A tree, and the chunks that its pairs make after some changes.
#[derive(Drop)]
pub struct Chunked {
    tree: Tree,
    chunks: Vec<Shared<Chunk>>,
}

/// The pairs of a listing, and the places at which a chunk ends where a case names such.
#[derive(Drop)]
struct Pairs {
    pairs: Vec<(Path, Node)>,
    ends: Vec<usize>,
}

/// Makes chunks of the tree that a case puts together, with the changes that it lists.
pub fn make_chunks(alloc: Global, case: &Case) -> Result<Chunked, CaseFault> {
    let tree = tree_of(alloc, case)?;
    let mut pairs = pairs_of(alloc, &tree)?;
    let mut line = 0;
    if let Some(entry) = case.find("changes", "") {
        line = entry.line;
        for content in text_of(alloc, case, entry)?.lines() {
            pairs.change(alloc, content, line)?;
        }
    }
    let chunks = pairs.cut(alloc, line)?;
    Ok(Chunked { tree, chunks })
}

fn pairs_of(alloc: Global, tree: &Tree) -> Result<Pairs, NoMemory> {
    let mut pairs = Vec::new(alloc);
    for chunk in &tree.all_chunks(alloc)? {
        let chunk = chunk.get();
        for i in 0..chunk.len() {
            pairs.push((chunk.path(i).clone()?, chunk.node(i).clone()?))?;
        }
    }
    Ok(Pairs {
        pairs,
        ends: Vec::new(alloc),
    })
}

impl Pairs {
    fn change(&mut self, alloc: Global, content: &str, line: usize) -> Result<(), CaseFault> {
        let (word, rest) = first_word(content);
        let (place, rest) = first_word(rest);
        let Ok(place) = place.parse::<usize>() else {
            return Err(Mistake::NoNumber.at(line));
        };
        match word {
            "cut" => self.ends.push(place)?,
            "insert" if place <= self.pairs.len() => {
                let Put { path, node, .. } = listed_put(alloc, rest, line)?;
                self.pairs.insert(place, (path, node))?;
            }
            _ => self.change_at(word, place, line)?,
        }
        Ok(())
    }

    /// Changes what stands at a place.
    fn change_at(&mut self, word: &str, place: usize, line: usize) -> Result<(), CaseFault> {
        if place >= self.pairs.len() {
            return Err(Mistake::NotAChange.at(line));
        }
        match word {
            "swap" if self.pairs.len() - place > 1 => self.pairs.swap(place, place + 1),
            "again" => {
                let (path, node) = &self.pairs[place];
                let again = (path.clone()?, node.clone()?);
                self.pairs.insert(place, again)?;
            }
            "remove" => {
                self.pairs.remove(place);
            }
            _ => return Err(Mistake::NotAChange.at(line)),
        }
        Ok(())
    }

    /// Cuts at the places that are named, or else after each 256 pairs.
    fn cut(self, alloc: Global, line: usize) -> Result<Vec<Shared<Chunk>>, CaseFault> {
        let Pairs { mut pairs, ends } = self;
        let mut chunks = Vec::new(alloc);
        for start in starts(alloc, &ends, pairs.len())?.iter().rev() {
            if *start > pairs.len() {
                return Err(Mistake::NotAChange.at(line));
            }
            let chunk = chunk_of(pairs.split_off(*start)?, line)?;
            chunks.push(Shared::new(alloc, chunk)?)?;
        }
        chunks.reverse();
        Ok(chunks)
    }
}

/// Where the chunks begin.
fn starts(alloc: Global, ends: &[usize], count: usize) -> Result<Vec<usize>, NoMemory> {
    let mut starts = Vec::new(alloc);
    if ends.is_empty() {
        for i in 0..count.div_ceil(CHUNK_PAIRS) {
            starts.push(i.saturating_mul(CHUNK_PAIRS))?;
        }
    } else {
        starts.push(0)?;
        starts.extend_from_slice(ends)?;
    }
    Ok(starts)
}

fn chunk_of(pairs: Vec<(Path, Node)>, line: usize) -> Result<Chunk, CaseFault> {
    if !Chunk::can_have(&pairs) {
        return Err(Mistake::NotAChunk.at(line));
    }
    Ok(Chunk::from_pairs(pairs)?)
}

impl Chunked {
    /// What came at a section, and `None` where chunks have no such section.
    pub fn section(&self, alloc: Global, due: &Entry) -> Result<Option<String>, NoMemory> {
        let text = match due.name.as_str() {
            "check" => self.check(alloc)?,
            "chunks" => chunk_lines(alloc, &self.chunks)?,
            "own" => self.own_lines(alloc)?,
            "tree" => self.tree(alloc)?,
            "clone" => tree_line(alloc, &self.tree.clone_tree()?)?,
            _ => return Ok(None),
        };
        Ok(Some(text))
    }

    fn check(&self, alloc: Global) -> Result<String, NoMemory> {
        match Tree::check(&self.chunks) {
            None => String::from_str(alloc, "fits"),
            Some(place) => format!(in alloc; "{place}"),
        }
    }

    /// The tree of the chunks, where they are those of one.
    fn tree(&self, alloc: Global) -> Result<String, NoMemory> {
        let chunks = self.chunks.as_slice();
        match Tree::check(chunks) {
            None => tree_line(alloc, &Tree::from_chunks(alloc, chunks)?),
            Some(_) => String::from_str(alloc, "none"),
        }
    }

    /// The chunks of the tree as it is.
    fn own_lines(&self, alloc: Global) -> Result<String, NoMemory> {
        let mut chunks = Vec::new(alloc);
        for i in 0..self.tree.chunks() {
            chunks.push(Shared::new(alloc, self.tree.chunk(alloc, i)?)?)?;
        }
        chunk_lines(alloc, &chunks)
    }
}

fn tree_line(alloc: Global, tree: &Tree) -> Result<String, NoMemory> {
    format!(in alloc; "{} {}", tree.len(), tree.size())
}

/// A line for each chunk: how many pairs it has, what it weighs, and the first path of it, if there is one.
fn chunk_lines(alloc: Global, chunks: &[Shared<Chunk>]) -> Result<String, NoMemory> {
    let mut lines = String::new(alloc);
    for chunk in chunks {
        let chunk = chunk.get();
        write!(lines, "{} {}", chunk.len(), chunk.weight())?;
        if !chunk.is_empty() {
            write!(lines, " {}", chunk.path(0).text(alloc)?.as_str())?;
        }
        lines.push('\n')?;
    }
    Ok(lines)
}
