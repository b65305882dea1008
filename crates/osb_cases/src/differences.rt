use crate::cases::{Case, read_cases};
use crate::entries::Entry;
use crate::mistakes::{CaseFault, Mistake};
use crate::outcomes::{Outcome, make_call};
use crate::parts::bytes_of;
use osb_base::NoMemory;
use std::alloc::Global;
use std::fmt;

/// How many bytes of a text are shown at most.
const MOST_SHOWN: usize = 200;

/// How many bytes before the first that differs are shown of a longer text.
const SHOWN_BEFORE: usize = 100;

/// How many cases were run, and at how many of them something differs.
#[derive(Clone, Copy, Debug, Default, PartialEq, Eq)]
pub struct Count {
    cases: u64,
    differing: u64,
}

impl Count {
    pub fn add(&mut self, other: Count) {
        self.cases = self.cases.saturating_add(other.cases);
        self.differing = self.differing.saturating_add(other.differing);
    }

    /// Counts a case.
    fn add_case(&mut self, differs: bool) {
        let differing = u64::from(differs);
        self.add(Count {
            cases: 1,
            differing,
        });
    }
}

impl fmt::Display for Count {
    fn fmt<W: fmt::Write>(&self, f: &mut fmt::Formatter<W>) -> fmt::Result {
        let cases = self.cases;
        let differing = self.differing;
        write!(f, "{cases} cases, {differing} differ")
    }
}

/// What a file's cases came to.
#[derive(Drop)]
pub struct Report {
    /// The differences, and where there are any the file's count.
    pub text: String,
    pub count: Count,
}

/// Runs the cases of a file.
pub fn run_cases(alloc: Global, file: &str, content: &str) -> Result<Report, CaseFault> {
    let cases = read_cases(alloc, content)?;
    if cases.is_empty() {
        return Err(Mistake::NoCase.at(1));
    }
    let mut text = String::new(alloc);
    let mut count = Count::default();
    for case in &cases {
        let differences = differences(alloc, file, case)?;
        count.add_case(!differences.is_empty());
        text.push_str(differences.as_str())?;
    }
    if count.differing > 0 {
        text.push_str(format!(in alloc; "{file}: {count}\n")?.as_str())?;
    }
    Ok(Report { text, count })
}

/// What differs at a case.
fn differences(alloc: Global, file: &str, case: &Case) -> Result<String, CaseFault> {
    let outcome = make_call(alloc, case)?;
    let mut text = String::new(alloc);
    let mut are_due = false;
    for entry in case.template.iter().chain(case.own.iter()) {
        if entry.word.as_str() == "due" {
            are_due = true;
            let difference = difference(alloc, file, case, entry, &outcome)?;
            text.push_str(difference.as_str())?;
        }
    }
    if !are_due {
        return Err(Mistake::NothingDue.at(case.line));
    }
    Ok(text)
}

/// What differs at one section, and the empty text where nothing does.
fn difference(
    alloc: Global,
    file: &str,
    case: &Case,
    entry: &Entry,
    outcome: &Outcome,
) -> Result<String, CaseFault> {
    let due = bytes_of(alloc, case, entry)?;
    let came = outcome.section(alloc, case, entry)?;
    if due == came {
        return Ok(String::new(alloc));
    }
    let start = first_shown(&due, &came);
    let due = shown(alloc, &due, start)?;
    let came = shown(alloc, &came, start)?;
    let head = head(alloc, file, case, entry)?;
    Ok(format!(in alloc; "{head}\n    due  {due}\n    came {came}\n")?)
}

/// The file, the case and the section.
fn head(alloc: Global, file: &str, case: &Case, entry: &Entry) -> Result<String, NoMemory> {
    let name = &case.name;
    let section = &entry.name;
    if entry.argument.is_empty() {
        return format!(in alloc; "{file}: {name}: {section}");
    }
    let argument = &entry.argument;
    format!(in alloc; "{file}: {name}: {section} {argument}")
}

/// Where two texts are shown from: from their beginning where both are short.
fn first_shown(due: &[u8], came: &[u8]) -> usize {
    if due.len() <= MOST_SHOWN && came.len() <= MOST_SHOWN {
        return 0;
    }
    common_length(due, came).saturating_sub(SHOWN_BEFORE)
}

/// How many bytes two texts begin with together.
fn common_length(due: &[u8], came: &[u8]) -> usize {
    due.iter()
        .zip(came)
        .take_while(|(due, came)| due == came)
        .count()
}

/// A text from a place on, in quotes, and where that is not the whole its place in it.
fn shown(alloc: Global, bytes: &[u8], start: usize) -> Result<String, NoMemory> {
    let length = bytes.len();
    let start = start.min(length);
    let (_, rest) = bytes.split_at(start);
    let (front, _) = rest.split_at(MOST_SHOWN.min(rest.len()));
    let text = front.escape_ascii();
    if front.len() == length {
        return format!(in alloc; "\"{text}\"");
    }
    format!(in alloc; "\"{text}\" from byte {start} of {length}")
}
