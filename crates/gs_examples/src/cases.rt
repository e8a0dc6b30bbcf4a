//! A case: a text, and what is expected of it.
use std::alloc::{AllocError, Global};

/// What is expected of a text.
#[derive(Clone, Copy)]
pub enum Expected {
    /// The case has more lines to come.
    Nothing,
    Document,
    /// No document: the number of bytes up to the end of the last statement before the fault.
    Fault(u64),
}

/// A text under a base, and the canonical lines of its triples without their line feeds. The text
/// is that of request 1.
#[derive(Drop)]
pub struct Case {
    alloc: Global,
    pub name: String,
    pub base: String,
    pub text: String,
    pub lines: Vec<Vec<u8>>,
    pub expected: Expected,
}

impl Case {
    pub fn new(alloc: Global) -> Result<Case, AllocError> {
        Ok(Case {
            alloc,
            name: String::new(alloc),
            base: String::from_str(alloc, "http://e/")?,
            text: String::new(alloc),
            lines: Vec::new(alloc),
            expected: Expected::Nothing,
        })
    }

    /// A line of the text. A text without a name is named by its lines.
    fn add(&mut self, line: &str, end: &str) -> Result<(), AllocError> {
        self.text.push_str(line)?;
        self.text.push_str(end)?;
        Ok(())
    }

    /// The case ends.
    fn end(&mut self, expected: Expected) -> Result<(), AllocError> {
        if self.name.is_empty() {
            self.name.push_str(self.text.as_str())?;
        }
        self.lines.sort_unstable();
        self.expected = expected;
        Ok(())
    }

    /// The next line of the input, without its line feed.
    pub fn take(&mut self, line: &str) -> Result<(), AllocError> {
        if let Some(name) = line.strip_prefix("= ") {
            self.name = String::from_str(self.alloc, name)?;
        } else if let Some(base) = line.strip_prefix("base ") {
            self.base = String::from_str(self.alloc, base)?;
        } else if let Some(text) = line.strip_prefix("|") {
            self.add(text, "\n")?;
        } else if let Some(text) = line.strip_prefix("\\") {
            self.add(text, "")?;
        } else if let Some(wanted) = line.strip_prefix(">") {
            self.lines
                .push(Vec::from_slice(self.alloc, wanted.as_bytes())?)?;
        } else if let Some(place) = line.strip_prefix("!") {
            self.end(Expected::Fault(place.parse::<u64>().unwrap_or(u64::MAX)))?;
        } else if line == "." {
            self.end(Expected::Document)?;
        }
        Ok(())
    }
}
