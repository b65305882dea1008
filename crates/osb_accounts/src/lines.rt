//! Account files as data.
ghost use Rattle.std.specs.Prelude.{◌≡◌, ◌++◌, ◌∷◌, [], ◌<◌, ◌≤◌, map, take, length, IfOk, IfSome, OnOk};
ghost use Rattle.std.specs.List.{slice_set};
ghost use Rattle.osb_tree.specs.Accounts.{fields_of};
ghost use Rattle.osb_accounts.specs.Lines.{line_text, file_text, line_of, ended, lines_in, field, is_line_of, place_of, line_at, with_field, number_at, has_number};

use crate::pieces::{copied, pieces};
use osb_stages::owners::Owner;
use osb_tree::accounts::account_number;
use osb_tree::{Bytes, NoMemory};
use std::alloc::Global;
use std::marker::Model;

/// A line of an account file, which contracts see as its fields. An empty line has none.
#[derive(Debug, Drop)]
pub struct Line {
    fields: Vec<Bytes>,
}

impl Model for Line {
    ghost use Rattle.std.specs.Prelude.{ℕ, List};

    ghost Value = { List (List ℕ) };

    ghost view = { λ l. l.fields.items };
}

impl Line {
    pub fn new(fields: Vec<Bytes>) -> Self
        ensures fields { result ≡ fields.items }
    {
        Line { fields }
    }

    /// The line of a text without line feeds.
    pub fn read(alloc: Global, text: &[u8]) -> Result<Self, NoMemory>
        ensures line { IfOk result (λ line. line ≡ line_of text.now) }
    {
        if text.is_empty() {
            return Ok(Line {
                fields: Vec::new(alloc),
            });
        }
        let pieces = pieces(alloc, text, b':')?;
        Ok(Line {
            fields: copies(alloc, &pieces)?,
        })
    }

    /// A field by its place, from 0; empty where the line has no such field.
    pub fn field(&self, place: usize) -> &[u8]
        ensures field { result.now ≡ field place self.now }
    {
        match self.fields.get(place) {
            Some(field) => field.as_slice(),
            None => &[],
        }
    }

    /// Whether it is the line of a name: an empty line is that of none.
    pub fn is_of(&self, name: &[u8]) -> bool
        ensures name { result ≡ is_line_of name.now self.now }
    {
        match self.fields.first() {
            Some(first) => first.as_slice() == name,
            None => false,
        }
    }

    /// The number that a field says, and 0 where it says none.
    pub fn owner_at(&self, place: usize) -> Owner
        ensures number { result ≡ number_at place self.now }
    {
        match account_number(self.field(place)) {
            Some(number) => Owner::new(number),
            None => Owner::new(0),
        }
    }

    /// Whether its account has the number: a user or a group has it in the third field.
    pub fn has_number(&self, number: u32) -> bool
        ensures number { result ≡ has_number number self.now }
    {
        account_number(self.field(2)) == Some(number)
    }

    /// Nothing changes where the line has no such field.
    pub fn set_field(&mut self, place: usize, text: Bytes)
        ensures set { self.new ≡ slice_set self.old place text }
    {
        if place < self.fields.len() {
            self.fields[place] = text;
        }
    }

    /// Its text without a line feed comes after a text.
    fn write(&self, out: &mut Vec<u8>) -> Result<(), NoMemory>
        ensures { OnOk result (out.new.items ≡ out.old.items ++ line_text self.now) }
    {
        write_fields(&self.fields, out)
    }
}

fn write_fields(fields: &[Bytes], out: &mut Vec<u8>) -> Result<(), NoMemory>
    ensures { OnOk result (out.new.items ≡ out.old.items ++ line_text fields.now) }
{
    for (place, field) in fields.iter().enumerate() {
        if place > 0 {
            out.push(b':')?;
        }
        out.extend_from_slice(field.as_slice())?;
    }
    Ok(())
}

fn copies(alloc: Global, pieces: &[&[u8]]) -> Result<Vec<Bytes>, NoMemory>
    ensures { IfOk result (λ copies. copies.items ≡ map (λ piece. piece.now) pieces.now) }
{
    let mut fields = Vec::new(alloc);
    for piece in pieces {
        fields.push(copied(alloc, piece)?)?;
    }
    Ok(fields)
}

/// The lines of an account file in order.
#[derive(Debug, Drop)]
pub struct Lines {
    lines: Vec<Line>,
}

impl Model for Lines {
    ghost use Rattle.std.specs.Prelude.{ℕ, List};

    ghost Value = { List (List (List ℕ)) };

    ghost view = { λ l. l.lines.items };
}

impl Lines {
    pub fn empty(alloc: Global) -> Self
        ensures lines { result ≡ [] }
    {
        Lines {
            lines: Vec::new(alloc),
        }
    }

    pub fn read(alloc: Global, bytes: &[u8]) -> Result<Self, NoMemory>
        ensures lines { IfOk result (λ lines. lines ≡ lines_in bytes.now) }
    {
        let texts = pieces(alloc, bytes, b'\n')?;
        Ok(Lines {
            lines: read_each(alloc, &texts[..line_count(&texts)])?,
        })
    }

    /// Every line ends in a line feed.
    pub fn text(&self, alloc: Global) -> Result<Bytes, NoMemory>
        ensures text { IfOk result (λ text. text ≡ file_text self.now) }
    {
        let mut out = Vec::new(alloc);
        for line in &self.lines {
            line.write(&mut out)?;
            out.push(b'\n')?;
        }
        Ok(Bytes::new(out))
    }

    pub fn as_slice(&self) -> &[Line]
        ensures lines { result.now ≡ self.now }
    {
        &self.lines
    }

    pub fn line_at(&self, place: usize) -> &Line
        requires { place < length self.now }
        ensures line { result.now ≡ line_at place self.now }
    {
        &self.lines[place]
    }

    /// The place of the first line of a name.
    pub fn place_of(&self, name: &[u8]) -> Option<usize>
        ensures place { result ≡ place_of name.now self.now }
        ensures within { IfSome result (λ place. place < length self.now) }
    {
        self.lines.iter().position(|line| line.is_of(name))
    }

    pub fn push(&mut self, line: Line) -> Result<(), NoMemory>
        ensures ok { OnOk result (self.new ≡ self.old ++ line ∷ []) }
    {
        Ok(self.lines.push(line)?)
    }

    /// Another text in one field of one line.
    pub fn set_field(&mut self, place: usize, field: usize, text: Bytes)
        requires { place < length self.old }
        ensures set { self.new ≡ with_field place field text self.old }
    {
        self.lines[place].set_field(field, text);
    }
}

/// How many of some texts are lines: after the last line feed there is none where nothing stands.
fn line_count(texts: &[&[u8]]) -> usize
    ensures lines { take result (map (λ text. text.now) texts.now) ≡ ended (map (λ text. text.now) texts.now) }
    ensures within { result ≤ length texts.now }
{
    match texts.last() {
        Some(last) if last.is_empty() => texts.len() - 1,
        _ => texts.len(),
    }
}

fn read_each(alloc: Global, texts: &[&[u8]]) -> Result<Vec<Line>, NoMemory>
    ensures { IfOk result (λ lines. lines.items ≡ map (λ text. line_of text.now) texts.now) }
{
    let mut lines = Vec::new(alloc);
    for text in texts {
        lines.push(Line::read(alloc, text)?)?;
    }
    Ok(lines)
}
