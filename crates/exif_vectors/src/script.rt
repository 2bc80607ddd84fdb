//! A data file: blocks of lines, each with an empty line behind it.

use crate::cases::{Case, CaseError, Named, Word, bytes_of, words_of};
use crate::modes::mismatch;
use std::alloc::Global;

/// How many cases passed, and how many failed.
#[derive(Clone, Copy)]
pub struct Tally {
    pub passed: u64,
    pub failed: u64,
}

impl Tally {
    /// No cases.
    pub fn new() -> Tally {
        Tally {
            passed: 0,
            failed: 0,
        }
    }

    /// Counts the cases of another file too.
    pub fn add(&mut self, other: Tally) {
        self.passed = self.passed.saturating_add(other.passed);
        self.failed = self.failed.saturating_add(other.failed);
    }
}

/// What was read of a data file so far.
#[derive(Drop)]
pub struct Script {
    alloc: Global,
    names: Vec<Named>,
    case: Option<Case>,
    // How many lines were read, and at which of them the case begins.
    lines: u64,
    start: u64,
    tally: Tally,
}

impl Script {
    /// A data file of which nothing was read.
    pub fn new(alloc: Global) -> Script {
        Script {
            alloc,
            names: Vec::new(alloc),
            case: None,
            lines: 0,
            start: 0,
            tally: Tally::new(),
        }
    }

    /// The cases that were run.
    pub fn tally(&self) -> Tally {
        self.tally
    }

    /// Counts a failure.
    pub fn fail(&mut self) {
        self.tally.failed = self.tally.failed.saturating_add(1);
    }

    /// Reads a line. An empty line runs the case before it.
    pub fn line(&mut self, rt: &HostRuntime, line: &str) -> Result<(), CaseError> {
        self.lines = self.lines.saturating_add(1);
        if line.is_empty() {
            return self.run(rt);
        }
        if line.starts_with('#') {
            return Ok(());
        }
        let (head, rest) = line.split_once(' ').unwrap_or((line, ""));
        match head {
            "case" => {
                let name = String::from_str(self.alloc, rest)?;
                self.case = Some(Case::new(self.alloc, name));
                self.start = self.lines;
                Ok(())
            }
            ">" => self.output_line(rest),
            "ends" | "prefixes" | "word" => self.part(head, &[], rest),
            _ => {
                let words = words_of(self.alloc, rest)?;
                self.words(head, words.as_slice(), rest)
            }
        }
    }

    // Reads a line that is made of words.
    fn words(&mut self, head: &str, words: &[Word], rest: &str) -> Result<(), CaseError> {
        if head == "let" {
            self.name(words)
        } else {
            self.part(head, words, rest)
        }
    }

    // Reads a name, and the bytes behind the equals sign.
    fn name(&mut self, words: &[Word]) -> Result<(), CaseError> {
        let Some((name, terms)) = words.split_first() else {
            return Err(CaseError::Line("no name"));
        };
        let bytes = bytes_of(
            self.alloc,
            self.names.as_slice(),
            terms.get(1..).unwrap_or(&[]),
        )?;
        let name = String::from_str(self.alloc, name.plain())?;
        self.names.push(Named { name, bytes })?;
        Ok(())
    }

    fn part(&mut self, head: &str, words: &[Word], rest: &str) -> Result<(), CaseError> {
        match &mut self.case {
            Some(case) => case.line(self.alloc, self.names.as_slice(), head, words, rest),
            None => Err(CaseError::Line("a line outside of a case")),
        }
    }

    fn output_line(&mut self, text: &str) -> Result<(), CaseError> {
        match &mut self.case {
            Some(case) => case.output_line(text),
            None => Err(CaseError::Line("a line outside of a case")),
        }
    }

    // Runs the case, if there is one.
    fn run(&mut self, rt: &HostRuntime) -> Result<(), CaseError> {
        let Some(case) = self.case.take() else {
            return Ok(());
        };
        match mismatch(self.alloc, &case)? {
            None => self.tally.passed = self.tally.passed.saturating_add(1),
            Some(found) => {
                self.fail();
                let (name, start) = (&case.name, self.start);
                let _ = println!(rt; "FAILED {name} (line {start}): {found}");
            }
        }
        Ok(())
    }
}
