/// The public call that a case is run through.
#[derive(Clone, Copy, Debug, PartialEq, Eq)]
pub enum Kind {
    RunSerial,
    Inspect,
    Marks,
    Path,
    Python,
    PythonString,
    Puts,
    Stage,
    Board,
    Chunks,
    Cache,
    Plan,
    Job,
    Serial,
    Schedule,
    Store,
    Settings,
}

impl Kind {
    /// The kind with this name.
    pub fn read(name: &str) -> Option<Kind> {
        match name {
            "run_serial" => Some(Kind::RunSerial),
            "inspect" => Some(Kind::Inspect),
            "marks" => Some(Kind::Marks),
            "path" => Some(Kind::Path),
            "python" => Some(Kind::Python),
            "python string" => Some(Kind::PythonString),
            "puts" => Some(Kind::Puts),
            "stage" => Some(Kind::Stage),
            "board" => Some(Kind::Board),
            "chunks" => Some(Kind::Chunks),
            "cache" => Some(Kind::Cache),
            "plan" => Some(Kind::Plan),
            "job" => Some(Kind::Job),
            "serial" => Some(Kind::Serial),
            "schedule" => Some(Kind::Schedule),
            "store" => Some(Kind::Store),
            "settings" => Some(Kind::Settings),
            _ => None,
        }
    }

    /// Whether a case of the kind may have a line with this word.
    pub fn takes(self, word: &str) -> bool {
        matches!(word, "due" | "part") || self.is_given(word)
    }

    fn is_given(self, word: &str) -> bool {
        match self {
            Kind::RunSerial => is_of_a_run(word) || matches!(word, "kept" | "before"),
            Kind::Inspect => is_of_a_run(word),
            Kind::Path | Kind::PythonString => word == "text",
            Kind::Python => word == "value",
            Kind::Marks => matches!(word, "value" | "words" | "word"),
            Kind::Puts => matches!(word, "puts" | "random"),
            Kind::Stage => { matches!(word, "puts" | "content" | "input" | "type" | "options") }
            Kind::Board => matches!(word, "tasks" | "script"),
            Kind::Chunks => matches!(word, "puts" | "random" | "changes"),
            Kind::Cache => matches!(word, "limit" | "script"),
            Kind::Plan => matches!(word, "words" | "word" | "file" | "build"),
            Kind::Job => matches!(word, "words" | "word" | "file" | "build" | "script"),
            Kind::Store => word == "bytes",
            Kind::Settings => matches!(word, "words" | "word"),
            Kind::Serial => {
                matches!(
                    word,
                    "words" | "word" | "file" | "build" | "limit" | "first"
                )
            }
            Kind::Schedule => {
                matches!(
                    word,
                    "words" | "word" | "file" | "build" | "limit" | "first" | "workers" | "schedule"
                )
            }
        }
    }
}

fn is_of_a_run(word: &str) -> bool {
    matches!(
        word,
        "words" | "word" | "file" | "mirror" | "fail" | "room" | "most"
    )
}
