//! The next character.
ghost use Rattle.std.specs.Prelude.{◌≡◌, IfOk};
ghost use Rattle.gs_ntread.specs.States.{Underscore, no_triple};
ghost use Rattle.gs_ntread.specs.Views.{cursor_state};
ghost use Rattle.gs_ntread.specs.Clauses.{AnswersTransition, transition_in, next_transition};
ghost use Rattle.gs_ntread.specs.declared.parts.Within.TheVariants as within;

use crate::cursor::Cursor;
use crate::parts::{Parts, Within};
use gs_chars::marks::COLON;
use std::alloc::AllocError;

impl Cursor {
    /// Takes a character that ends after n bytes, and gives the triple that it completes.
    pub fn take(&mut self, c: u32, n: u64) -> Result<Option<Parts>, AllocError>
        ensures { AnswersTransition self.new result (next_transition self.old c n) }
    {
        match self.within {
            Within::Between => return self.between(c, n),
            Within::Comment => self.in_comment(c),
            Within::Iri => self.in_iri(c)?,
            Within::IriEscape => self.iri_escape(c),
            Within::IriDigits => self.iri_digit(c)?,
            Within::Quoted => self.in_string(c)?,
            Within::QuotedEscape => self.string_escape(c)?,
            Within::QuotedDigits => self.string_digit(c)?,
            Within::Underscore => self.underscore(c),
            Within::Colon => self.begin_label(c)?,
            Within::Label => return self.in_label(c, n),
            Within::Dots => return self.in_dots(c),
            Within::Caret => self.caret(c)?,
            Within::AtSign => self.at_sign(c)?,
            Within::Tag => return self.in_tag(c, n),
            Within::TagPart => return self.in_part(c, n),
            Within::Hyphen => self.hyphen(c)?,
            Within::Faulty(_) => {}
        }
        Ok(None)
    }

    /// The character after an underscore.
    fn underscore(&mut self, c: u32)
        requires { self.old.within ≡ within.Underscore }
        ensures { no_triple (cursor_state self.new) ≡ transition_in self.old Underscore c 0 }
    {
        if c == COLON {
            self.within = Within::Colon;
        } else {
            self.break_off();
        }
    }
}
