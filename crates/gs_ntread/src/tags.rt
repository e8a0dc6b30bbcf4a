//! After a string: its datatype or its language tag.
ghost use Rattle.std.specs.Prelude.{◌≡◌, true, false, None, OnOk, IfOk};
ghost use Rattle.gs_ntterm.specs.LineTerms.{fault_of as fault_of_result};
ghost use Rattle.gs_ntterm.specs.Views.{held_of};
ghost use Rattle.gs_ntread.specs.States.{no_triple, Caret, AtSign};
ghost use Rattle.gs_ntread.specs.Lines.{string_fault as string_fault_of};
ghost use Rattle.gs_ntread.specs.Transitions.{tag_fault as tag_fault_of};
ghost use Rattle.gs_ntread.specs.Views.{cursor_state, stage_at};
ghost use Rattle.gs_ntread.specs.Clauses.{AnswersTransition, MovesTo, hyphen_so_far, tag_so_far, transition_in};
ghost use Rattle.gs_ntread.specs.declared.parts.Within.TheVariants as within;

use crate::cursor::Cursor;
use crate::parts::{Parts, Place, Within};
use gs_chars::marks::CARET;
use gs_model::Fault;
use gs_ntterm::is_tag_char;
use gs_term::TermText;
use std::alloc::AllocError;

/// The first fault where what stands after a literal does not go on with its line.
fn fault_of(literal: Result<TermText, Fault>) -> Fault
    ensures { result ≡ fault_of_result literal }
{
    match literal {
        Ok(_) => Fault::Syntax,
        Err(fault) => fault,
    }
}

impl Cursor {
    /// The fault of a string after which no suffix begins.
    pub fn string_fault(&self) -> Result<Fault, AllocError>
        ensures { IfOk result (λ e. e ≡ string_fault_of (stage_at self.now)) }
    {
        match &self.place {
            Place::Suffix(_, _) => Ok(fault_of(gs_ntterm::plain(self.alloc, &self.lexical)?)),
            _ => Ok(Fault::Syntax),
        }
    }

    /// The fault of a literal that nothing may follow but its dot.
    pub fn tag_fault(&self) -> Result<Fault, AllocError>
        ensures { IfOk result (λ e. e ≡ tag_fault_of (stage_at self.now) (held_of self.now.text)) }
    {
        match &self.place {
            Place::Suffix(_, _) => {
                let literal = gs_ntterm::tagged(self.alloc, &self.lexical, &self.text)?;
                Ok(fault_of(literal))
            }
            _ => Ok(Fault::Syntax),
        }
    }

    /// The character after a `^`.
    pub fn caret(&mut self, c: u32) -> Result<(), AllocError>
        requires { self.old.within ≡ within.Caret }
        ensures { OnOk result (no_triple (cursor_state self.new) ≡ transition_in self.old Caret c 0) }
    {
        if c == CARET {
            self.close_caret();
        } else {
            let fault = self.string_fault()?;
            self.fail(fault);
        }
        Ok(())
    }

    /// The character after an `@`.
    pub fn at_sign(&mut self, c: u32) -> Result<(), AllocError>
        requires { self.old.within ≡ within.AtSign }
        ensures { OnOk result (no_triple (cursor_state self.new) ≡ transition_in self.old AtSign c 0) }
    {
        match char::from_u32(c) {
            Some(first) if is_tag_char(false, c) => {
                self.open(Within::Tag);
                self.text.push(first)?;
            }
            _ => {
                let fault = self.string_fault()?;
                self.fail(fault);
            }
        }
        Ok(())
    }

    /// A character of a tag's first part, or after it.
    pub fn in_tag(&mut self, c: u32, n: u64) -> Result<Option<Parts>, AllocError>
        requires { self.old.within ≡ within.Tag }
        ensures { AnswersTransition self.new result (transition_in self.old (tag_so_far false self.old) c n) }
    {
        match char::from_u32(c) {
            Some(next) if is_tag_char(false, c) => {
                self.text.push(next)?;
                Ok(None)
            }
            _ => self.tag_ends(c, n),
        }
    }

    /// A character of a tag's later part, or after it.
    pub fn in_part(&mut self, c: u32, n: u64) -> Result<Option<Parts>, AllocError>
        requires { self.old.within ≡ within.TagPart }
        ensures { AnswersTransition self.new result (transition_in self.old (tag_so_far true self.old) c n) }
    {
        match char::from_u32(c) {
            Some(next) if is_tag_char(true, c) => {
                self.text.push(next)?;
                Ok(None)
            }
            _ => self.tag_ends(c, n),
        }
    }

    /// The character after a `-` that a tag may go on after.
    pub fn hyphen(&mut self, c: u32) -> Result<(), AllocError>
        requires { self.old.within ≡ within.Hyphen }
        ensures { OnOk result (MovesTo self.new None (transition_in self.old (hyphen_so_far self.old) c 0)) }
    {
        match char::from_u32(c) {
            Some(next) if is_tag_char(true, c) => {
                self.text.push('-')?;
                self.text.push(next)?;
                self.within = Within::TagPart;
            }
            _ => {
                let fault = self.tag_fault()?;
                self.fail(fault);
            }
        }
        Ok(())
    }
}
