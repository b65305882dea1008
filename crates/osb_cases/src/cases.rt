use crate::entries::{Entry, read_entries};
use crate::kinds::Kind;
use crate::mistakes::{CaseFault, Mistake};
use std::alloc::Global;

/// One call, what it is run on, and what is due.
#[derive(Drop)]
pub struct Case {
    pub line: usize,
    pub name: String,
    pub kind: Kind,
    /// The lines before the first case, without those in whose place the case's own stand.
    pub template: Vec<Entry>,
    pub own: Vec<Entry>,
}

impl Case {
    /// The line with this word and name.
    pub fn find(&self, word: &str, name: &str) -> Option<&Entry> {
        let own = self.own.iter().find(|entry| entry.is(word, name));
        if own.is_some() {
            return own;
        }
        self.template.iter().find(|entry| entry.is(word, name))
    }

    /// The line with this word, without which the call can't be made.
    pub fn needed(&self, word: &str) -> Result<&Entry, CaseFault> {
        match self.find(word, "") {
            Some(entry) => Ok(entry),
            None => Err(Mistake::NotGiven.at(self.line)),
        }
    }

    /// The one number of the line with this word.
    pub fn number(&self, word: &str) -> Result<Option<usize>, CaseFault> {
        let Some(entry) = self.find(word, "") else {
            return Ok(None);
        };
        match entry.value.parse::<usize>() {
            Ok(number) => Ok(Some(number)),
            Err(_) => Err(Mistake::NoNumber.at(entry.line)),
        }
    }

    /// Adds a line of its own.
    fn add(&mut self, entry: Entry) -> Result<(), CaseFault> {
        let is_twice = self.own.iter().any(|held| entry.replaces(held));
        if is_twice && !entry.gives_words() {
            return Err(Mistake::GivenTwice.at(entry.line));
        }
        self.template.retain(|given| !entry.replaces(given));
        self.own.push(entry)?;
        Ok(())
    }
}

/// The cases of a file, in order.
pub fn read_cases(alloc: Global, text: &str) -> Result<Vec<Case>, CaseFault> {
    let mut reader = Reader {
        kind: None,
        template: Vec::new(alloc),
        is_template: true,
        cases: Vec::new(alloc),
    };
    for entry in read_entries(alloc, text)? {
        match entry.word.as_str() {
            "call" => reader.begin_call(alloc, &entry)?,
            "case" => reader.begin_case(alloc, entry)?,
            _ => reader.add(entry)?,
        }
    }
    Ok(reader.cases)
}

/// The cases read so far.
#[derive(Drop)]
struct Reader {
    /// Of the last `call`.
    kind: Option<Kind>,
    template: Vec<Entry>,
    /// Whether no case stands below the last `call` yet.
    is_template: bool,
    cases: Vec<Case>,
}

impl Reader {
    fn begin_call(&mut self, alloc: Global, entry: &Entry) -> Result<(), CaseFault> {
        let Some(kind) = Kind::read(entry.value.as_str()) else {
            return Err(Mistake::UnknownCall.at(entry.line));
        };
        self.kind = Some(kind);
        self.template = Vec::new(alloc);
        self.is_template = true;
        Ok(())
    }

    fn begin_case(&mut self, alloc: Global, entry: Entry) -> Result<(), CaseFault> {
        let Some(kind) = self.kind else {
            return Err(Mistake::NoCall.at(entry.line));
        };
        if entry.value.is_empty() {
            return Err(Mistake::NoName.at(entry.line));
        }
        if self.cases.iter().any(|case| case.name == entry.value) {
            return Err(Mistake::SameName.at(entry.line));
        }
        self.is_template = false;
        self.cases.push(Case {
            line: entry.line,
            name: entry.value.clone()?,
            kind,
            template: self.template.clone()?,
            own: Vec::new(alloc),
        })?;
        Ok(())
    }

    fn add(&mut self, entry: Entry) -> Result<(), CaseFault> {
        let Some(kind) = self.kind else {
            return Err(Mistake::NoCall.at(entry.line));
        };
        if !kind.takes(entry.word.as_str()) {
            return Err(Mistake::UnknownLine.at(entry.line));
        }
        if self.is_template {
            return self.add_to_template(entry);
        }
        match self.cases.last_mut() {
            Some(case) => case.add(entry),
            None => Err(Mistake::NoCall.at(entry.line)),
        }
    }

    fn add_to_template(&mut self, entry: Entry) -> Result<(), CaseFault> {
        let is_twice = self.template.iter().any(|held| entry.replaces(held));
        if is_twice && !entry.gives_words() {
            return Err(Mistake::GivenTwice.at(entry.line));
        }
        self.template.push(entry)?;
        Ok(())
    }
}
