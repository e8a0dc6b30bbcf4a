//! Where a token ends.
ghost use Rattle.std.specs.Prelude.{◌≡◌, OnOk, IfOk};
ghost use Rattle.gs_ntterm.specs.Tokens.{Held, iri_held, typed_held};
ghost use Rattle.gs_ntterm.specs.Views.{held_of};
ghost use Rattle.gs_ntread.specs.Lines.{predicate_next, object_next, dot_next, string_closed, caret_closed};
ghost use Rattle.gs_ntread.specs.Views.{settled, subject_of, cursor_state, stage_at};
ghost use Rattle.gs_ntread.specs.Clauses.{SettlesAs, iri_closed_of, token_iri, typed_next};

use crate::cursor::Cursor;
use crate::parts::{Object, Place, Subject, Within};
use gs_model::Fault;
use gs_ntterm::{Name, Token};
use std::alloc::{AllocError, Global};
use std::mem;

/// The place after a subject.
fn to_predicate(alloc: Global, text: &Token) -> Result<Result<Place, Fault>, AllocError>
    ensures { SettlesAs result (predicate_next (token_iri text.now)) }
{
    Ok(match gs_ntterm::iri(alloc, text)? {
        Ok(name) => Ok(Place::Predicate(Subject::Iri(name))),
        Err(fault) => Err(fault),
    })
}

/// The place after a predicate.
fn to_object(
    alloc: Global,
    subject: Subject,
    text: &Token,
) -> Result<Result<Place, Fault>, AllocError>
    ensures { SettlesAs result (object_next (subject_of subject) (token_iri text.now)) }
{
    Ok(match gs_ntterm::iri(alloc, text)? {
        Ok(name) => Ok(Place::Object(subject, name)),
        Err(fault) => Err(fault),
    })
}

/// The place after an IRI that is an object.
fn to_dot(
    alloc: Global,
    subject: Subject,
    predicate: Name,
    text: &Token,
) -> Result<Result<Place, Fault>, AllocError>
    ensures { SettlesAs result (dot_next (subject_of subject) predicate.term (token_iri text.now)) }
{
    Ok(match gs_ntterm::iri(alloc, text)? {
        Ok(name) => {
            let Name { term } = name;
            Ok(Place::Dot(subject, predicate, Object::Term(term)))
        }
        Err(fault) => Err(fault),
    })
}

/// The place after a literal and its datatype.
fn to_typed(
    alloc: Global,
    subject: Subject,
    predicate: Name,
    lexical: &Token,
    text: &Token,
) -> Result<Result<Place, Fault>, AllocError>
    ensures { SettlesAs result (typed_next subject predicate lexical.now text.now) }
{
    Ok(match gs_ntterm::typed(alloc, lexical, text)? {
        Ok(term) => Ok(Place::Dot(subject, predicate, Object::Term(term))),
        Err(fault) => Err(fault),
    })
}

impl Cursor {
    fn settle(&mut self, place: Result<Place, Fault>)
        ensures { cursor_state self.new ≡ settled place (held_of self.old.lexical) }
    {
        match place {
            Ok(place) => {
                drop(mem::replace(&mut self.place, place));
                self.within = Within::Between;
            }
            Err(fault) => self.fail(fault),
        }
    }

    /// The `>` of an IRI.
    pub fn close_iri(&mut self) -> Result<(), AllocError>
        ensures { OnOk result (cursor_state self.new ≡ iri_closed_of self.old) }
    {
        let alloc = self.alloc;
        let place = match mem::replace(&mut self.place, Place::End) {
            Place::Subject => to_predicate(alloc, &self.text)?,
            Place::Predicate(subject) => to_object(alloc, subject, &self.text)?,
            Place::Object(subject, predicate) => to_dot(alloc, subject, predicate, &self.text)?,
            Place::Datatype(subject, predicate) => {
                to_typed(alloc, subject, predicate, &self.lexical, &self.text)?
            }
            other => {
                drop(other);
                Err(Fault::Syntax)
            }
        };
        self.settle(place);
        Ok(())
    }

    /// The second `"` of a string.
    pub fn close_string(&mut self)
        ensures { cursor_state self.new ≡ string_closed (stage_at self.old) (held_of self.old.text) }
    {
        match mem::replace(&mut self.place, Place::End) {
            Place::Object(subject, predicate) => {
                mem::swap(&mut self.text, &mut self.lexical);
                drop(mem::replace(&mut self.place, Place::Suffix(subject, predicate)));
                self.within = Within::Between;
            }
            other => {
                drop(other);
                self.break_off();
            }
        }
    }

    /// The second `^`.
    pub fn close_caret(&mut self)
        ensures { cursor_state self.new ≡ caret_closed (stage_at self.old) }
    {
        match mem::replace(&mut self.place, Place::End) {
            Place::Suffix(subject, predicate) => {
                drop(mem::replace(&mut self.place, Place::Datatype(subject, predicate)));
                self.within = Within::Between;
            }
            other => {
                drop(other);
                self.break_off();
            }
        }
    }
}
