//! A case: a head, and what it asks for, or the size line of a chunk, and its size.
use std::alloc::{AllocError, Global};

/// A line of the head and its end, where the line of the input has one.
fn head_line(line: &str) -> Option<(&str, &'static str)> {
    if let Some(text) = line.strip_prefix("|") {
        return Some((text, "\r\n"));
    }
    if let Some(text) = line.strip_prefix("\\") {
        return Some((text, "\n"));
    }
    match line.strip_prefix("+") {
        Some(text) => Some((text, "")),
        None => None,
    }
}

/// A head or a size line under a name, and what is said of it, once all its lines were taken.
#[derive(Drop)]
pub struct Case<'a> {
    pub name: &'a str,
    pub head: String,
    /// The bytes are a size line, and no head.
    pub is_size_line: bool,
    pub wanted: Option<&'a str>,
}

impl<'a> Case<'a> {
    /// A case without a line.
    pub fn new(alloc: Global) -> Case<'a> {
        Case {
            name: "",
            head: String::new(alloc),
            is_size_line: false,
            wanted: None,
        }
    }

    /// A line of the head, with its end. The first line names the case, unless it has a name.
    fn add(&mut self, line: &'a str, end: &str) -> Result<(), AllocError> {
        if self.name.is_empty() {
            self.name = line;
        }
        self.head.push_str(line)?;
        self.head.push_str(end)?;
        Ok(())
    }

    /// The next line of the input, without its line feed.
    pub fn take(&mut self, line: &'a str) -> Result<(), AllocError> {
        if let Some((text, end)) = head_line(line) {
            return self.add(text, end);
        }
        if let Some(name) = line.strip_prefix("= ") {
            self.name = name;
        } else if line == "~" {
            self.is_size_line = true;
        } else if let Some(wanted) = line.strip_prefix("> ") {
            self.wanted = Some(wanted);
        }
        Ok(())
    }
}
