//! The character after a token that has no closing mark.
ghost use Rattle.std.specs.Prelude.{◌≡◌, ◌==◌, IfOk, if◌then◌else◌};
ghost use Rattle.gs_model.specs.declared.faults.Fault.TheVariants.{Syntax};
ghost use Rattle.gs_ntterm.specs.Labels.{label_of};
ghost use Rattle.gs_ntterm.specs.Views.{held_of};
ghost use Rattle.gs_ntread.specs.States.{no_triple, broken};
ghost use Rattle.gs_ntread.specs.Lines.{end_state};
ghost use Rattle.gs_ntread.specs.Transitions.{label_transition, tag_transition, tag_ended};
ghost use Rattle.gs_ntread.specs.Views.{cursor_state, stage_at};
ghost use Rattle.gs_ntread.specs.Clauses.{AnswersTransition, MovesTo, dotted_transition_of};

use crate::cursor::Cursor;
use crate::parts::{Object, Parts, Place, Subject, Within};
use gs_chars::marks::HYPHEN;
use std::alloc::AllocError;
use std::mem;

impl Cursor {
    fn stop(&mut self) -> Option<Parts>
        ensures { MovesTo self.new result (no_triple (broken Syntax)) }
    {
        self.break_off();
        None
    }

    /// A character after a label.
    pub fn after_label(&mut self, c: u32, n: u64) -> Result<Option<Parts>, AllocError>
        ensures { AnswersTransition self.new result
            (label_transition (stage_at self.old) (label_of self.old.label) c n) }
    {
        let label = self.label.copy(self.alloc)?;
        match mem::replace(&mut self.place, Place::End) {
            Place::Subject => {
                self.within = Within::Between;
                drop(mem::replace(&mut self.place, Place::Predicate(Subject::Label(label))));
                self.between(c, n)
            }
            Place::Object(subject, predicate) => {
                self.within = Within::Between;
                drop(mem::replace(
                    &mut self.place,
                    Place::Dot(subject, predicate, Object::Label(label)),
                ));
                Ok(self.dot(c, n))
            }
            other => {
                drop(other);
                Ok(self.stop())
            }
        }
    }

    /// Where a label that is an object and dots have ended: the first dot ended the statement.
    fn after_statement(&mut self, c: u32)
        ensures { cursor_state self.new ≡ (if self.old.count == 0 then end_state c else broken Syntax) }
    {
        self.within = Within::Between;
        drop(mem::replace(&mut self.place, Place::End));
        if self.count == 0 {
            self.after_dot(c);
        } else {
            self.break_off();
        }
    }

    /// A character after a label and dots that are not the label's.
    pub fn after_dots(&mut self, c: u32) -> Result<Option<Parts>, AllocError>
        ensures { AnswersTransition self.new result (dotted_transition_of self.old c) }
    {
        let label = self.label.copy(self.alloc)?;
        let end = self.value;
        match mem::replace(&mut self.place, Place::End) {
            Place::Object(subject, predicate) => {
                self.after_statement(c);
                Ok(Some(Parts {
                    subject,
                    predicate,
                    object: Object::Label(label),
                    end,
                }))
            }
            other => {
                drop(other);
                Ok(self.stop())
            }
        }
    }

    /// A character after a language tag.
    fn after_tag(&mut self, c: u32, n: u64) -> Result<Option<Parts>, AllocError>
        ensures { AnswersTransition self.new result
            (tag_transition (stage_at self.old) (held_of self.old.text) c n) }
    {
        match mem::replace(&mut self.place, Place::End) {
            Place::Suffix(subject, predicate) => {
                let literal = gs_ntterm::tagged(self.alloc, &self.lexical, &self.text)?;
                Ok(self.after_literal(subject, predicate, literal, c, n))
            }
            other => {
                drop(other);
                Ok(self.stop())
            }
        }
    }

    /// A character that does not go on with a part of a language tag.
    pub fn tag_ends(&mut self, c: u32, n: u64) -> Result<Option<Parts>, AllocError>
        ensures { AnswersTransition self.new result
            (tag_ended (stage_at self.old) (held_of self.old.text) c n) }
    {
        if c == HYPHEN {
            self.within = Within::Hyphen;
            return Ok(None);
        }
        self.after_tag(c, n)
    }
}
