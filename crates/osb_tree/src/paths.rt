ghost use Rattle.std.specs.Prelude.{◌≡◌, ◌≢◌, ◌↔◌, ℕ, ◌≤◌, ◌==◌, List, length, IfOk, IsTrue};
ghost use Rattle.std.specs.List.{list_all, list_any};
ghost use Rattle.std.specs.Ordering.{nat_cmp, as_partial_cmp};
ghost use Rattle.std.specs.Cmp.{partial_order_from_own_ties};
ghost use Rattle.std.specs.Cmp.Lexicographic.{pointwise, slice_cmp, lists_ties, lists_total, nat_list_cmp_total, texts_ties};
ghost use Rattle.std.specs.Cmp.Rules.{comparing};
ghost use Rattle.std.proofs.Common.{rules};
ghost use Rattle.osb_tree.specs.Paths.{Names, root, is_name, is_dots, IsPath, names_of, path_of, path_text, joined, parent_of};

use crate::names::has_nul;
use crate::{Name, NoMemory, PathFault, Text};
use std::alloc::Global;
use std::cmp::Ordering;
use std::marker::Model;

/// The longest that the text of a path may be, in bytes.
const MAX_LENGTH: usize = 4096;

/// The place of a file in a tree, which contracts see as the list of its names from the root.
#[derive(Debug, Drop)]
pub struct Path {
    names: Vec<Name>,
}

impl Model for Path {
    ghost Value = { List (List ℕ) };

    ghost view = { λ p. p.names.items };

    ghost invariant = { λ p. IsPath p.names.items };
}

impl Path {
    pub fn root(alloc: Global) -> Self
        ensures root { result ≡ root }
    {
        Path {
            names: Vec::new(alloc),
        }
    }

    /// The path that a text gives: names between slashes, from the root. Repeated slashes and slashes at the end
    /// are accepted.
    pub fn read(alloc: Global, text: &str) -> Result<Self, PathFault>
        ensures path { result ≢ Err PathFault.NoMemory → result ≡ path_of text.now }
    {
        if text.is_empty() {
            return Err(PathFault::Empty);
        }
        if !text.starts_with('/') {
            return Err(PathFault::NotAbsolute);
        }
        if has_dots(text) {
            return Err(PathFault::DotName);
        }
        if has_nul(text) {
            return Err(PathFault::NulByte);
        }
        let names = names_between(alloc, text)?;
        if !is_short(&names) {
            return Err(PathFault::TooLong);
        }
        Ok(Path { names })
    }

    /// The names in order, the one below the root first.
    pub fn names(&self) -> &[Name]
        ensures names { result.now ≡ self.now }
        ensures path { IsPath self.now }
    {
        &self.names
    }

    pub fn text(&self, alloc: Global) -> Result<Text, NoMemory>
        ensures text { IfOk result (λ text. text ≡ path_text self.now) }
    {
        if self.names.is_empty() {
            return Text::new(alloc, "/");
        }
        let mut text = String::new(alloc);
        for name in &self.names {
            text.push('/')?;
            text.push_str(name.as_str())?;
        }
        Ok(Text::from(text))
    }

    /// The path with these names after its own.
    pub fn join(&self, alloc: Global, rest: &[Name]) -> Result<Path, PathFault>
        ensures path { result ≢ Err PathFault.NoMemory → result ≡ joined self.now rest.now }
    {
        let mut names = self.names.clone()?;
        names.extend_from_slice(rest)?;
        if !is_short(&names) {
            return Err(PathFault::TooLong);
        }
        Ok(Path { names })
    }

    /// The path of the directory that holds it.
    pub fn parent(&self, alloc: Global) -> Result<Option<Path>, NoMemory>
        ensures parent { IfOk result (λ parent. parent ≡ parent_of self.now) }
    {
        let Some((_, parents)) = self.names.split_last() else {
            return Ok(None);
        };
        Ok(Some(Path {
            names: parents.to_vec(alloc)?,
        }))
    }
}

impl Clone for Path {
    ghost is_clone = { λ x y. y ≡ x };

    fn clone(&self) -> Result<Self, NoMemory> {
        Ok(Path {
            names: self.names.clone()?,
        })
    }
}

impl PartialEq for Path {
    ghost eq = { pointwise (pointwise ◌==◌) };

    ghost laws = { Prim.search (comparing, rules) };

    fn eq(&self, other: &Self) -> bool {
        self.names == other.names
    }
}

impl Eq for Path {
    ghost laws = { Prim.search (comparing, rules) };
}

impl PartialOrd for Path {
    ghost partial_cmp = { as_partial_cmp (slice_cmp (slice_cmp nat_cmp)) };

    ghost laws = { partial_order_from_own_ties (Prim.search (comparing, rules)) (lists_ties (slice_cmp nat_cmp) texts_ties) };

    fn partial_cmp(&self, other: &Self) -> Option<Ordering> {
        Some(self.cmp(other))
    }
}

impl Ord for Path {
    ghost cmp = { slice_cmp (slice_cmp nat_cmp) };

    ghost total = { lists_total nat_list_cmp_total };

    ghost matches_partial_cmp = { Prim.search (comparing, rules) };

    ghost matches_eq = { lists_ties (slice_cmp nat_cmp) texts_ties };

    fn cmp(&self, other: &Self) -> Ordering {
        self.names.cmp(&other.names)
    }
}

/// Whether a name between slashes is `.` or `..`.
fn has_dots(text: &str) -> bool
    ensures { result ≡ list_any is_dots (names_of text.now) }
{
    text.split('/').any(|piece| piece == "." || piece == "..")
}

fn names_between(alloc: Global, text: &str) -> Result<Vec<Name>, NoMemory>
    requires { IsTrue (list_all is_name (names_of text.now)) }
    ensures { IfOk result (λ names. names.items ≡ names_of text.now) }
{
    let mut names = Vec::new(alloc);
    for piece in text.split('/') {
        if !piece.is_empty() {
            names.push(Name::new(alloc, piece)?)?;
        }
    }
    Ok(names)
}

/// Whether names make a path that is not too long.
fn is_short(names: &[Name]) -> bool
    ensures short { IsTrue result ↔ (length (path_text names.now) ≤ 4096) }
    ensures named { IsTrue result → IsTrue (list_all is_name names.now) }
{
    let mut room = MAX_LENGTH;
    for name in names {
        let length = name.as_str().len();
        if length >= room {
            return false;
        }
        room -= length + 1;
    }
    true
}
