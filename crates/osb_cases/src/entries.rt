use crate::mistakes::{CaseFault, Mistake};
use osb_base::NoMemory;
use std::alloc::Global;

/// A line at the left edge of a case file, with the block below it.
#[derive(Clone, Debug, Drop)]
pub struct Entry {
    /// Its number in the file, from 1.
    pub line: usize,
    /// What it does, such as `due`.
    pub word: String,
    /// Which of its kind it is, such as `list`; empty where there is but one.
    pub name: String,
    /// What the section is asked at, such as the folder of a list; mostly empty.
    pub argument: String,
    /// The rest of the line.
    pub value: String,
    pub block: Vec<String>,
}

impl Entry {
    pub fn is(&self, word: &str, name: &str) -> bool {
        self.word.as_str() == word && self.name.as_str() == name
    }

    /// Whether it gives the words that a run is called with.
    pub fn gives_words(&self) -> bool {
        matches!(self.word.as_str(), "word" | "words")
    }

    /// Whether it takes the place of what the template gives.
    pub fn replaces(&self, given: &Entry) -> bool {
        if self.gives_words() {
            return given.gives_words();
        }
        self.word == given.word && self.name == given.name && self.argument == given.argument
    }

    /// The number of a line of its block, which has this place in it.
    pub fn block_line(&self, place: usize) -> usize {
        self.line.saturating_add(1).saturating_add(place)
    }
}

/// The first word of a text, and what stands after the blank.
pub fn first_word(text: &str) -> (&str, &str) {
    text.split_once(' ').unwrap_or((text, ""))
}

/// The lines of a case file, with their blocks.
pub fn read_entries(alloc: Global, text: &str) -> Result<Vec<Entry>, CaseFault> {
    let mut reader = Reader {
        entries: Vec::new(alloc),
        is_open: false,
    };
    let mut line = 0usize;
    for content in text.split('\n') {
        line = line.saturating_add(1);
        reader.read_line(alloc, line, content)?;
    }
    Ok(reader.entries)
}

/// The lines read so far.
#[derive(Drop)]
struct Reader {
    entries: Vec<Entry>,
    /// Whether the last line may go on with a block.
    is_open: bool,
}

impl Reader {
    fn read_line(&mut self, alloc: Global, line: usize, content: &str) -> Result<(), CaseFault> {
        if let Some(text) = content.strip_prefix("    ") {
            return self.add_to_block(alloc, line, text);
        }
        self.is_open = false;
        if content.is_empty() || content.starts_with('#') {
            return Ok(());
        }
        if content.starts_with(' ') || content.starts_with('\t') {
            return Err(Mistake::Indented.at(line));
        }
        self.entries.push(entry_of(alloc, line, content)?)?;
        self.is_open = true;
        Ok(())
    }

    fn add_to_block(&mut self, alloc: Global, line: usize, text: &str) -> Result<(), CaseFault> {
        if !self.is_open {
            return Err(Mistake::StrayBlock.at(line));
        }
        let Some(entry) = self.entries.last_mut() else {
            return Err(Mistake::StrayBlock.at(line));
        };
        if !takes_block(entry.word.as_str()) {
            return Err(Mistake::StrayBlock.at(line));
        }
        if !matches!(entry.value.as_str(), "" | "parts") {
            return Err(Mistake::ValueAndBlock.at(line));
        }
        entry.block.push(String::from_str(alloc, text)?)?;
        Ok(())
    }
}

fn takes_block(word: &str) -> bool {
    matches!(
        word,
        "file"
            | "mirror"
            | "kept"
            | "part"
            | "text"
            | "value"
            | "puts"
            | "changes"
            | "input"
            | "tasks"
            | "script"
            | "schedule"
            | "bytes"
            | "content"
            | "options"
            | "due"
    )
}

fn entry_of(alloc: Global, line: usize, content: &str) -> Result<Entry, NoMemory> {
    let (word, rest) = first_word(content);
    let (name, rest) = name_and_rest(word, rest);
    let (argument, value) = argument_and_rest(word, name, rest);
    Ok(Entry {
        line,
        word: String::from_str(alloc, word)?,
        name: String::from_str(alloc, name)?,
        argument: String::from_str(alloc, argument)?,
        value: String::from_str(alloc, value)?,
        block: Vec::new(alloc),
    })
}

fn name_and_rest<'a>(word: &str, rest: &'a str) -> (&'a str, &'a str) {
    match word {
        "file" | "mirror" | "fail" | "part" | "input" | "content" | "build" | "due" => {
            first_word(rest)
        }
        _ => ("", rest),
    }
}

fn argument_and_rest<'a>(word: &str, name: &str, rest: &'a str) -> (&'a str, &'a str) {
    match (word, name) {
        ("due", "list" | "at" | "after" | "content") => first_word(rest),
        _ => ("", rest),
    }
}
