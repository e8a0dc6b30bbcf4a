//! From characters to the parts of triples.
ghost use Rattle.std.specs.Prelude.{◌≡◌, ◌∷◌, [], OnOk, IfOk, if◌then◌else◌, ◌==◌};
ghost use Rattle.gs_ntterm.specs.LineTerms.{LineTerm};
ghost use Rattle.gs_ntterm.specs.Classes.{is_space as is_space_of};
ghost use Rattle.gs_ntterm.specs.Tokens.{Text, plain_held};
ghost use Rattle.gs_ntread.specs.States.{line_start, broken, no_triple};
ghost use Rattle.gs_ntread.specs.Lines.{end_state, between_transition, after_literal, iri_begins, object_comes};

use crate::parts::{Object, Parts, Place, Subject, Within};
use gs_chars::is_line_end;
use gs_chars::marks::{AT_SIGN, CARET, DOT, LESS_THAN, NUMBER_SIGN, QUOTE, UNDERSCORE};
use gs_model::Fault;
use gs_ntterm::{Label, Name, Token, is_space};
use gs_term::TermText;
use std::alloc::{AllocError, Global};
use std::mem;

/// Where in a document the characters so far lead.
#[derive(Drop)]
pub struct Cursor {
    pub alloc: Global,
    /// Which part of the line comes, with what was read of the line.
    pub place: Place,
    /// Between two tokens, or in which token.
    pub within: Within,
    /// The IRI, the string or the language tag that is being read.
    pub text: Token,
    /// The string before a datatype or a language tag, as long as one may follow.
    pub lexical: Token,
    /// The label that is being read, also in the dots after it.
    pub label: Label,
    /// In an escape, how many digits come after the next one. In dots after a label, how many
    /// there are after the first.
    pub count: u64,
    /// In an escape, the number that its digits so far write. In dots after a label, how many
    /// bytes the body has up to the end of the first dot.
    pub value: u64,
}

impl Cursor {
    ghost use Rattle.gs_model.specs.declared.faults.Fault.TheVariants.{Syntax};
    ghost use Rattle.gs_ntterm.specs.Terminals.{Plain};
    ghost use Rattle.gs_ntterm.specs.Labels.{label_of};
    ghost use Rattle.gs_ntterm.specs.Views.{held_of};
    ghost use Rattle.gs_ntread.specs.Views.{cursor_state, stage_at, subject_of, IsSuffix, IsDot};
    ghost use Rattle.gs_ntread.specs.Clauses.{AnswersTransition, MovesTo, opened_token};
    ghost use Rattle.gs_ntread.specs.declared.parts.Within.TheVariants as within;
    ghost use Rattle.gs_ntread.specs.declared.parts.Place.TheVariants as at;

    /// At the start of a document, with nothing read.
    pub fn new(alloc: Global) -> Cursor
        ensures { cursor_state result ≡ line_start }
    {
        Cursor {
            alloc,
            place: Place::Subject,
            within: Within::Between,
            text: Token::new(alloc),
            lexical: Token::new(alloc),
            label: Label::new(alloc),
            count: 0,
            value: 0,
        }
    }

    /// Nothing more is read, for a fault.
    pub fn fail(&mut self, fault: Fault)
        ensures { cursor_state self.new ≡ broken fault }
    {
        self.within = Within::Faulty(fault);
    }

    /// The grammar is broken.
    pub fn break_off(&mut self)
        ensures { cursor_state self.new ≡ broken Syntax }
    {
        self.fail(Fault::Syntax);
    }

    /// A token begins.
    pub fn open(&mut self, within: Within)
        ensures { cursor_state self.new ≡ opened_token self.old within }
    {
        self.text.clear();
        self.within = within;
    }

    /// A character at the front of a line.
    fn begin_line(&mut self, c: u32)
        requires between { self.old.within ≡ within.Between }
        requires place { self.old.place ≡ at.Subject }
        ensures { no_triple (cursor_state self.new) ≡ between_transition (stage_at self.old) c 0 }
    {
        if is_space(c) || is_line_end(c) {
            return;
        }
        match c {
            NUMBER_SIGN => self.within = Within::Comment,
            LESS_THAN => self.open(Within::Iri),
            UNDERSCORE => self.within = Within::Underscore,
            _ => self.break_off(),
        }
    }

    /// A character where only an IRI may begin.
    fn begin_iri(&mut self, c: u32)
        requires { self.old.within ≡ within.Between }
        ensures { cursor_state self.new ≡ iri_begins (stage_at self.old) c }
    {
        if is_space(c) {
            return;
        }
        match c {
            LESS_THAN => self.open(Within::Iri),
            _ => self.break_off(),
        }
    }

    /// A character where an object may begin.
    fn begin_object(&mut self, c: u32)
        requires { self.old.within ≡ within.Between }
        ensures { cursor_state self.new ≡ object_comes (stage_at self.old) c }
    {
        if is_space(c) {
            return;
        }
        match c {
            LESS_THAN => self.open(Within::Iri),
            UNDERSCORE => self.within = Within::Underscore,
            QUOTE => self.open(Within::Quoted),
            _ => self.break_off(),
        }
    }

    /// A character after a triple's dot.
    pub fn after_dot(&mut self, c: u32)
        requires between { self.old.within ≡ within.Between }
        requires place { self.old.place ≡ at.End }
        ensures { cursor_state self.new ≡ end_state c }
    {
        if is_space(c) {
            return;
        }
        if is_line_end(c) {
            self.place = Place::Subject;
        } else if c == NUMBER_SIGN {
            self.within = Within::Comment;
        } else {
            self.break_off();
        }
    }

    /// A character where the dot comes, which ends there, after n bytes.
    pub fn dot(&mut self, c: u32, n: u64) -> Option<Parts>
        requires between { self.old.within ≡ within.Between }
        requires place { IsDot self.old.place }
        ensures { MovesTo self.new result (between_transition (stage_at self.old) c n) }
    {
        if is_space(c) {
            return None;
        }
        if c != DOT {
            self.break_off();
            return None;
        }
        match mem::replace(&mut self.place, Place::End) {
            Place::Dot(subject, predicate, object) => Some(Parts {
                subject,
                predicate,
                object,
                end: n,
            }),
            other => {
                drop(other);
                None
            }
        }
    }

    /// A character after a literal, whose token ends before it.
    pub fn after_literal(
        &mut self,
        subject: Subject,
        predicate: Name,
        literal: Result<TermText, Fault>,
        c: u32,
        n: u64,
    ) -> Option<Parts>
        ensures { MovesTo self.new result (after_literal (subject_of subject) predicate.term literal c n) }
    {
        match literal {
            Ok(term) => {
                self.within = Within::Between;
                drop(mem::replace(
                    &mut self.place,
                    Place::Dot(subject, predicate, Object::Term(term)),
                ));
                self.dot(c, n)
            }
            Err(fault) => {
                self.fail(fault);
                None
            }
        }
    }

    /// A character after a string.
    fn suffix(&mut self, c: u32, n: u64) -> Result<Option<Parts>, AllocError>
        requires between { self.old.within ≡ within.Between }
        requires place { IsSuffix self.old.place }
        ensures { AnswersTransition self.new result (between_transition (stage_at self.old) c n) }
    {
        if is_space(c) {
            return Ok(None);
        }
        if c == CARET {
            self.within = Within::Caret;
            return Ok(None);
        }
        if c == AT_SIGN {
            self.within = Within::AtSign;
            return Ok(None);
        }
        match mem::replace(&mut self.place, Place::End) {
            Place::Suffix(subject, predicate) => {
                let literal = gs_ntterm::plain(self.alloc, &self.lexical)?;
                Ok(self.after_literal(subject, predicate, literal, c, n))
            }
            other => {
                drop(other);
                Ok(None)
            }
        }
    }

    /// A character between two tokens.
    pub fn between(&mut self, c: u32, n: u64) -> Result<Option<Parts>, AllocError>
        requires { self.old.within ≡ within.Between }
        ensures { AnswersTransition self.new result (between_transition (stage_at self.old) c n) }
    {
        match &self.place {
            Place::Subject => self.begin_line(c),
            Place::Predicate(_) | Place::Datatype(_, _) => self.begin_iri(c),
            Place::Object(_, _) => self.begin_object(c),
            Place::Suffix(_, _) => return self.suffix(c, n),
            Place::Dot(_, _, _) => return Ok(self.dot(c, n)),
            Place::End => self.after_dot(c),
        }
        Ok(None)
    }
}
