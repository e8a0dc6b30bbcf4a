//! One character more.
ghost use Rattle.std.specs.Prelude.{◌≡◌, IfOk, OnOk};
ghost use Rattle.gs_ntterm.specs.Terminals.{Plain, Escape, Digits};
ghost use Rattle.gs_ntterm.specs.Labels.{label_of};
ghost use Rattle.gs_ntterm.specs.Views.{held_of};
ghost use Rattle.gs_ntread.specs.States.{no_triple, Colon, Comment};
ghost use Rattle.gs_ntread.specs.Views.{cursor_state};
ghost use Rattle.gs_ntread.specs.Clauses.{AnswersTransition, digits_so_far, dots_so_far, iri_number_of, iri_transition_of, label_so_far, string_number_of, string_transition_of, transition_in};
ghost use Rattle.gs_ntread.specs.declared.parts.Within.TheVariants as within;

use crate::cursor::Cursor;
use crate::parts::{Parts, Place, Within};
use gs_chars::marks::{BACKSLASH, BIG_U, DOT, GREATER_THAN, QUOTE, SMALL_U};
use gs_chars::{echar_meaning, is_iri_char, is_line_end};
use gs_ntterm::{begins_label, char_of, is_label_char, may_stand_in_comment, with_digit};
use std::alloc::AllocError;

impl Cursor {
    /// A character of an IRI.
    pub fn in_iri(&mut self, c: u32) -> Result<(), AllocError>
        requires { self.old.within ≡ within.Iri }
        ensures { OnOk result (cursor_state self.new ≡ iri_transition_of self.old Plain c) }
    {
        if c == GREATER_THAN {
            return self.close_iri();
        }
        if c == BACKSLASH {
            self.within = Within::IriEscape;
            return Ok(());
        }
        match char::from_u32(c) {
            Some(plain) if is_iri_char(plain) => self.text.push(plain)?,
            _ => self.break_off(),
        }
        Ok(())
    }

    /// The character after a backslash in an IRI.
    pub fn iri_escape(&mut self, c: u32)
        requires { self.old.within ≡ within.IriEscape }
        ensures { cursor_state self.new ≡ iri_transition_of self.old Escape c }
    {
        self.within = Within::IriDigits;
        self.value = 0;
        match c {
            SMALL_U => self.count = 3,
            BIG_U => self.count = 7,
            _ => self.break_off(),
        }
    }

    /// The last digit of an escape in an IRI has come, which makes this number.
    fn iri_number(&mut self, value: u64) -> Result<(), AllocError>
        ensures { OnOk result (cursor_state self.new ≡ iri_number_of self.old value) }
    {
        match char_of(value) {
            Some(meant) if is_iri_char(meant) => {
                self.within = Within::Iri;
                self.text.push(meant)?;
            }
            _ => self.break_off(),
        }
        Ok(())
    }

    /// A digit of an escape in an IRI.
    pub fn iri_digit(&mut self, c: u32) -> Result<(), AllocError>
        requires { self.old.within ≡ within.IriDigits }
        ensures { OnOk result
            (cursor_state self.new ≡ iri_transition_of self.old (digits_so_far self.old) c) }
    {
        let Some(value) = with_digit(self.value, c) else {
            self.break_off();
            return Ok(());
        };
        if self.count != 0 {
            self.count -= 1;
            self.value = value;
            return Ok(());
        }
        self.iri_number(value)
    }

    /// A character of a string.
    pub fn in_string(&mut self, c: u32) -> Result<(), AllocError>
        requires { self.old.within ≡ within.Quoted }
        ensures { OnOk result (cursor_state self.new ≡ string_transition_of self.old Plain c) }
    {
        if c == QUOTE {
            self.close_string();
            return Ok(());
        }
        if c == BACKSLASH {
            self.within = Within::QuotedEscape;
            return Ok(());
        }
        if is_line_end(c) {
            self.break_off();
            return Ok(());
        }
        match char::from_u32(c) {
            Some(plain) => self.text.push(plain)?,
            None => self.break_off(),
        }
        Ok(())
    }

    /// The character after a backslash in a string.
    pub fn string_escape(&mut self, c: u32) -> Result<(), AllocError>
        requires { self.old.within ≡ within.QuotedEscape }
        ensures { OnOk result (cursor_state self.new ≡ string_transition_of self.old Escape c) }
    {
        if c == SMALL_U || c == BIG_U {
            self.within = Within::QuotedDigits;
            self.value = 0;
            self.count = if c == SMALL_U { 3 } else { 7 };
            return Ok(());
        }
        match echar_meaning(c) {
            Some(meant) => {
                self.within = Within::Quoted;
                self.text.push(meant)?;
            }
            None => self.break_off(),
        }
        Ok(())
    }

    /// The last digit of an escape in a string has come, which makes this number.
    fn string_number(&mut self, value: u64) -> Result<(), AllocError>
        ensures { OnOk result (cursor_state self.new ≡ string_number_of self.old value) }
    {
        match char_of(value) {
            Some(meant) => {
                self.within = Within::Quoted;
                self.text.push(meant)?;
            }
            None => self.break_off(),
        }
        Ok(())
    }

    /// A digit of an escape in a string.
    pub fn string_digit(&mut self, c: u32) -> Result<(), AllocError>
        requires { self.old.within ≡ within.QuotedDigits }
        ensures { OnOk result
            (cursor_state self.new ≡ string_transition_of self.old (digits_so_far self.old) c) }
    {
        let Some(value) = with_digit(self.value, c) else {
            self.break_off();
            return Ok(());
        };
        if self.count != 0 {
            self.count -= 1;
            self.value = value;
            return Ok(());
        }
        self.string_number(value)
    }

    /// The first character of a label.
    pub fn begin_label(&mut self, c: u32) -> Result<(), AllocError>
        requires { self.old.within ≡ within.Colon }
        ensures { OnOk result (no_triple (cursor_state self.new) ≡ transition_in self.old Colon c 0) }
    {
        match char::from_u32(c) {
            Some(first) if begins_label(c) => {
                self.within = Within::Label;
                self.label.begin(first)?;
            }
            _ => self.break_off(),
        }
        Ok(())
    }

    /// A character of a label, or after it, which ends after n bytes.
    pub fn in_label(&mut self, c: u32, n: u64) -> Result<Option<Parts>, AllocError>
        requires { self.old.within ≡ within.Label }
        ensures { AnswersTransition self.new result (transition_in self.old (label_so_far self.old) c n) }
    {
        match char::from_u32(c) {
            Some(next) if is_label_char(c) => {
                self.label.push(next)?;
                return Ok(None);
            }
            _ => {}
        }
        if c == DOT {
            self.within = Within::Dots;
            self.count = 0;
            self.value = n;
            return Ok(None);
        }
        self.after_label(c, n)
    }

    /// A character after dots that may be a label's.
    pub fn in_dots(&mut self, c: u32) -> Result<Option<Parts>, AllocError>
        requires { self.old.within ≡ within.Dots }
        ensures { AnswersTransition self.new result (transition_in self.old (dots_so_far self.old) c 0) }
    {
        match char::from_u32(c) {
            Some(next) if is_label_char(c) => {
                self.label.push('.')?;
                self.label.push_dots(self.count)?;
                self.label.push(next)?;
                self.within = Within::Label;
                return Ok(None);
            }
            _ => {}
        }
        if c == DOT {
            self.count = self.count.checked_add(1).ok_or(AllocError)?;
            return Ok(None);
        }
        self.after_dots(c)
    }

    /// A character of a comment, or after it.
    pub fn in_comment(&mut self, c: u32)
        requires { self.old.within ≡ within.Comment }
        ensures { no_triple (cursor_state self.new) ≡ transition_in self.old Comment c 0 }
    {
        if is_line_end(c) {
            self.place = Place::Subject;
            self.within = Within::Between;
        } else if !may_stand_in_comment(c) {
            self.break_off();
        }
    }
}
