//! A case: a text, and what is expected of it.
use crate::notation::push_bytes;
use crate::operations::{Form, Operation};
use std::alloc::{AllocError, Global};

/// What is expected of a text.
#[derive(Clone, Copy)]
pub enum Expected {
    /// The case has more lines to come.
    Nothing,
    Update,
    /// It is an update, and its texts are too many for its bytes.
    TooMuch,
    /// The text breaks the grammar: the number of bytes up to the end of the last operation before
    /// the fault.
    Broken(u64),
    TooLong,
    OutOfProfile,
}

/// A text under a base, and the operations that are expected of it. The text is that of request 1.
#[derive(Drop)]
pub struct Case {
    alloc: Global,
    pub name: String,
    pub base: String,
    pub text: Vec<u8>,
    pub operations: Vec<Operation>,
    pub expected: Expected,
}

impl Case {
    /// A case of which nothing is known yet.
    pub fn new(alloc: Global) -> Result<Case, AllocError> {
        Ok(Case {
            alloc,
            name: String::new(alloc),
            base: String::from_str(alloc, "http://e/")?,
            text: Vec::new(alloc),
            operations: Vec::new(alloc),
            expected: Expected::Nothing,
        })
    }

    /// A line of the text. A text without a name is named by its lines.
    fn add(&mut self, line: &str, end: &str) -> Result<(), AllocError> {
        if self.text.is_empty() && self.name.is_empty() {
            self.name.push_str(line)?;
        }
        push_bytes(self.alloc, &mut self.text, line)?;
        self.text.extend_from_slice(end.as_bytes())
    }

    /// An operation begins, with the number of its lines where these are not listed.
    fn begin(&mut self, form: Form, count: &str) -> Result<(), AllocError> {
        self.operations.push(Operation {
            form,
            lines: Vec::new(self.alloc),
            count: count.trim().parse::<usize>().ok(),
        })?;
        Ok(())
    }

    /// A line of the last operation.
    fn want(&mut self, line: &str) -> Result<(), AllocError> {
        let mut bytes = Vec::new(self.alloc);
        push_bytes(self.alloc, &mut bytes, line)?;
        if let Some(operation) = self.operations.last_mut() {
            operation.lines.push(bytes)?;
            operation.lines.sort_unstable();
        }
        Ok(())
    }

    /// The case ends.
    fn end(&mut self, fault: &str) {
        self.expected = match fault {
            "much" => Expected::TooMuch,
            "long" => Expected::TooLong,
            "out" => Expected::OutOfProfile,
            place => Expected::Broken(place.parse::<u64>().unwrap_or(u64::MAX)),
        };
    }

    /// The next line of the input, without its line feed.
    pub fn take(&mut self, line: &str) -> Result<(), AllocError> {
        if let Some(name) = line.strip_prefix("= ") {
            self.name = String::from_str(self.alloc, name)?;
        } else if let Some(base) = line.strip_prefix("base ") {
            self.base = String::from_str(self.alloc, base)?;
        } else if let Some(text) = line.strip_prefix("|") {
            self.add(text, "\n")?;
        } else if let Some(text) = line.strip_prefix("\\") {
            self.add(text, "")?;
        } else if let Some(count) = line.strip_prefix("insert") {
            self.begin(Form::InsertData, count)?;
        } else if let Some(count) = line.strip_prefix("delete") {
            self.begin(Form::DeleteData, count)?;
        } else if let Some(count) = line.strip_prefix("where") {
            self.begin(Form::DeleteWhere, count)?;
        } else if let Some(wanted) = line.strip_prefix(">") {
            self.want(wanted)?;
        } else if let Some(fault) = line.strip_prefix("!") {
            self.end(fault);
        } else if line == "." {
            self.expected = Expected::Update;
        }
        Ok(())
    }
}
