//! The bytes of a token.
ghost use Rattle.std.specs.Prelude.{◌≡◌, ◌-◌, ◌++◌, true, [], OnOk, string_bytes, string_len};
ghost use Rattle.std.specs.Str.{IsAscii};
ghost use Rattle.std.specs.Char.{encode_utf8};
ghost use Rattle.gs_model.specs.Limits.{max_term_bytes};

use crate::forms::Form;
use gs_model::MAX_TERM_BYTES;
use std::alloc::{AllocError, Global};
use std::str::from_utf8_unchecked;

/// Bytes of ASCII as text, which is not tested again.
pub fn ascii_str(bytes: &[u8]) -> &str
    requires { IsAscii bytes.now }
    ensures { result.now ≡ bytes.now }
{
    unsafe { from_utf8_unchecked(bytes) }
}

/// Appends bytes of ASCII, as text that is not tested again.
pub fn push_ascii(text: &mut String, bytes: &[u8]) -> Result<(), AllocError>
    requires { IsAscii bytes.now }
    ensures { OnOk result (string_bytes text.new ≡ string_bytes text.old ++ bytes.now) }
{
    text.push_str(ascii_str(bytes))
}

/// The bytes of a token so far, of which only the form is kept where no term has room for them.
#[derive(Drop)]
pub struct Token {
    /// All bytes so far, as long as a term has room for them.
    pub text: String,
    /// No term has room for the bytes.
    pub is_long: bool,
    /// The form of all bytes so far, where no term has room for them.
    pub form: Form,
}

impl Token {
    ghost use Rattle.gs_ntterm.specs.Tokens.{add, Text, Long};
    ghost use Rattle.gs_ntterm.specs.Forms.{form_of, form_after};
    ghost use Rattle.gs_ntterm.specs.Runs.{add_each};
    ghost use Rattle.gs_ntterm.specs.Views.{held_of};

    /// No bytes yet.
    pub fn new(alloc: Global) -> Token
        ensures { held_of result ≡ Text [] }
    {
        Token {
            text: String::new(alloc),
            is_long: false,
            form: Form::new(),
        }
    }

    /// A token begins.
    pub fn clear(&mut self)
        ensures { held_of self.new ≡ Text [] }
    {
        self.text.clear();
        self.is_long = false;
    }

    /// How many bytes more a term may have.
    #[inline]
    fn room(&self) -> usize
        ensures { result ≡ max_term_bytes - string_len self.now.text }
    {
        MAX_TERM_BYTES - self.text.len().min(MAX_TERM_BYTES)
    }

    /// No term has room for the token: only its form is kept from now on.
    fn let_go(&mut self)
        ensures form { self.new.form ≡ form_of (string_bytes self.old.text) }
        ensures long { self.new.is_long ≡ true }
    {
        self.form = Form::new().after(self.text.as_str().as_bytes());
        self.is_long = true;
    }

    /// Takes a character of a token for which no term has room: the form goes on with its bytes. The
    /// text is needed no more, and serves as the room in which the character is encoded.
    fn follow(&mut self, c: char) -> Result<(), AllocError>
        requires { self.old.is_long ≡ true }
        ensures { OnOk result (held_of self.new ≡ Long (form_after self.old.form (encode_utf8 c))) }
    {
        self.text.clear();
        self.text.push(c)?;
        self.form = self.form.after(self.text.as_str().as_bytes());
        Ok(())
    }

    /// A character more.
    pub fn push(&mut self, c: char) -> Result<(), AllocError>
        ensures { OnOk result (held_of self.new ≡ add (held_of self.old) (encode_utf8 c)) }
    {
        if self.is_long {
            return self.follow(c);
        }
        if c.len_utf8() > self.room() {
            self.let_go();
            return self.follow(c);
        }
        self.text.push(c)
    }

    /// Bytes of ASCII more.
    pub fn push_all(&mut self, bytes: &[u8]) -> Result<(), AllocError>
        requires { IsAscii bytes.now }
        ensures { OnOk result (held_of self.new ≡ add_each (held_of self.old) bytes.now) }
    {
        if self.is_long {
            self.form = self.form.after(bytes);
            return Ok(());
        }
        if bytes.len() > self.room() {
            self.let_go();
            self.form = self.form.after(bytes);
            return Ok(());
        }
        push_ascii(&mut self.text, bytes)
    }
}
