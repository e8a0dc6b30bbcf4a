//! The end of the text.
ghost use Rattle.std.specs.Prelude.{◌≡◌, IfOk};
ghost use Rattle.gs_ntterm.specs.Labels.{label_of};
ghost use Rattle.gs_ntread.specs.Machine.{end_of_text, between_end};
ghost use Rattle.gs_ntread.specs.Views.{cursor_state, stage_at, ending_of};
ghost use Rattle.gs_ntread.specs.Clauses.{ClosesAs, dots_end_of};

use crate::cursor::Cursor;
use crate::parts::{Object, Parts, Place, Within};
use gs_model::Fault;
use std::alloc::AllocError;
use std::mem;

/// How a text ends: whole, or with its first fault.
pub type Ending = Result<(), Fault>;

impl Cursor {
    /// The text ends: the triple that is complete by that, and how.
    pub fn end(&mut self) -> Result<(Option<Parts>, Ending), AllocError>
        ensures { ClosesAs result (end_of_text (cursor_state self.old).0 (cursor_state self.old).1) }
    {
        match self.within {
            Within::Between => Ok((None, self.end_between()?)),
            Within::Comment => Ok((None, Ok(()))),
            Within::Dots => self.end_dots(),
            Within::Caret | Within::AtSign => Ok((None, Err(self.string_fault()?))),
            Within::Tag | Within::TagPart | Within::Hyphen => Ok((None, Err(self.tag_fault()?))),
            Within::Faulty(fault) => Ok((None, Err(fault))),
            _ => Ok((None, Err(Fault::Syntax))),
        }
    }

    fn end_between(&self) -> Result<Ending, AllocError>
        ensures { IfOk result (λ e. ending_of e ≡ between_end (stage_at self.now)) }
    {
        match &self.place {
            Place::Subject | Place::End => Ok(Ok(())),
            Place::Suffix(_, _) => Ok(Err(self.string_fault()?)),
            _ => Ok(Err(Fault::Syntax)),
        }
    }

    fn end_dots(&mut self) -> Result<(Option<Parts>, Ending), AllocError>
        ensures { ClosesAs result (dots_end_of self.old) }
    {
        let label = self.label.copy(self.alloc)?;
        match mem::replace(&mut self.place, Place::End) {
            Place::Object(subject, predicate) => {
                let parts = Parts {
                    subject,
                    predicate,
                    object: Object::Label(label),
                    end: self.value,
                };
                let ending = if self.count == 0 {
                    Ok(())
                } else {
                    Err(Fault::Syntax)
                };
                Ok((Some(parts), ending))
            }
            other => {
                drop(other);
                Ok((None, Err(Fault::Syntax)))
            }
        }
    }
}
