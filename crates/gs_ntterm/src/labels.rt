//! The bytes of a blank node's label.
ghost use Rattle.std.specs.Prelude.{◌≡◌, ◌++◌, [], OnOk, IfOk, string_bytes};
ghost use Rattle.std.specs.Char.{encode_utf8};
ghost use Rattle.std.specs.Str.{IsAscii};

use crate::tokens::push_ascii;
use std::alloc::{AllocError, Global};

/// The bytes of a blank node's label so far. Labels are of any length, as no term has their text.
#[derive(Drop)]
pub struct Label {
    pub text: String,
}

impl Label {
    ghost use Rattle.gs_ntterm.specs.Labels.{label_of, add_dots};

    /// No bytes yet.
    pub fn new(alloc: Global) -> Label
        ensures { label_of result ≡ [] }
    {
        Label {
            text: String::new(alloc),
        }
    }

    /// A label begins with a character.
    pub fn begin(&mut self, c: char) -> Result<(), AllocError>
        ensures { OnOk result (label_of self.new ≡ encode_utf8 c) }
    {
        self.text.clear();
        self.text.push(c)
    }

    /// A character more.
    pub fn push(&mut self, c: char) -> Result<(), AllocError>
        ensures { OnOk result (label_of self.new ≡ label_of self.old ++ encode_utf8 c) }
    {
        self.text.push(c)
    }

    /// Bytes of ASCII more.
    pub fn push_all(&mut self, bytes: &[u8]) -> Result<(), AllocError>
        requires { IsAscii bytes.now }
        ensures { OnOk result (label_of self.new ≡ label_of self.old ++ bytes.now) }
    {
        push_ascii(&mut self.text, bytes)
    }

    /// So many dots more.
    pub fn push_dots(&mut self, count: u64) -> Result<(), AllocError>
        ensures { OnOk result (label_of self.new ≡ add_dots (label_of self.old) count) }
    {
        for _ in 0..count {
            self.push('.')?;
        }
        Ok(())
    }

    /// The label, in an allocation of its own.
    pub fn copy(&self, alloc: Global) -> Result<String, AllocError>
        ensures { IfOk result (λ l. string_bytes l ≡ label_of self.now) }
    {
        String::from_str(alloc, self.text.as_str())
    }
}
