//! Tokens that stand whole at the front of a piece, taken in one go.
ghost use Rattle.std.specs.Prelude.{◌≡◌, ◌≤◌, length, take, IfOk, IfSome};
ghost use Rattle.gs_ntread.specs.declared.parts.Place.TheVariants as at;
ghost use Rattle.gs_ntread.specs.declared.parts.Within.TheVariants as within;
ghost use Rattle.gs_ntread.specs.Clauses.{RunsOver, TakesObject};
ghost use Rattle.gs_ntread.specs.Wholes.{IsDotAfter, IsObjectToken, IsObjectFront};
ghost use Rattle.gs_ntread.specs.Views.{object_of};

use crate::cursor::Cursor;
use crate::parts::{Object, Parts, Place, Subject, Within};
use gs_ntterm::{Between, Name, iri_front, literal_front, short_run_len};
use std::alloc::{AllocError, Global};
use std::mem;

/// The IRI that stands whole at the front, if one does, as an object, and how many bytes it has.
fn iri_object(alloc: Global, piece: &[u8]) -> Result<Option<(Object, usize)>, AllocError>
    ensures { IfOk result (λ o. IfSome o (λ w. IsObjectToken piece.now w.1 (object_of w.0))) }
{
    match iri_front(alloc, piece)? {
        None => Ok(None),
        Some((name, n)) => {
            let Name { term } = name;
            Ok(Some((Object::Term(term), n)))
        }
    }
}

/// The same of a literal.
fn literal_object(alloc: Global, piece: &[u8]) -> Result<Option<(Object, usize)>, AllocError>
    ensures { IfOk result (λ o. IfSome o (λ w. IsObjectToken piece.now w.1 (object_of w.0))) }
{
    match literal_front(alloc, piece)? {
        None => Ok(None),
        Some((term, n)) => Ok(Some((Object::Term(term), n))),
    }
}

/// The object that stands whole at the front, if one does, and how many bytes it has.
fn object_token(alloc: Global, piece: &[u8]) -> Result<Option<(Object, usize)>, AllocError>
    ensures { IfOk result (λ o. IfSome o (λ w. IsObjectToken piece.now w.1 (object_of w.0))) }
{
    if piece.len() > 0 && piece[0] == b'<' {
        iri_object(alloc, piece)
    } else {
        literal_object(alloc, piece)
    }
}

/// How many blanks come before a dot at the front, if only blanks do.
pub fn blanks_to_dot(rest: &[u8]) -> Option<usize>
    ensures { IfSome result (λ k. IsDotAfter rest.now k) }
{
    let blanks = short_run_len::<Between>(rest);
    if blanks >= rest.len() || rest[blanks] != b'.' {
        return None;
    }
    Some(blanks)
}

/// The object that stands whole at the front with the dot of its statement, if one does, and how
/// many bytes they have.
fn object_front(alloc: Global, piece: &[u8]) -> Result<Option<(Object, usize)>, AllocError>
    ensures { IfOk result (λ o. IfSome o (λ w. IsObjectFront piece.now w.1 (object_of w.0))) }
{
    match object_token(alloc, piece)? {
        None => Ok(None),
        Some((object, n)) => match blanks_to_dot(&piece[n..]) {
            None => Ok(None),
            Some(blanks) => Ok(Some((object, n + blanks + 1))),
        },
    }
}

impl Cursor {
    /// An IRI that stands whole where a subject comes.
    fn whole_subject(&mut self, piece: &[u8]) -> Result<usize, AllocError>
        requires between { self.old.within ≡ within.Between }
        requires place { self.old.place ≡ at.Subject }
        ensures bound { IfOk result (λ n. n ≤ length piece.now) }
        ensures run { IfOk result (λ n. RunsOver self.old self.new (take n piece.now)) }
    {
        match iri_front(self.alloc, piece)? {
            None => Ok(0),
            Some((name, n)) => {
                self.place = Place::Predicate(Subject::Iri(name));
                Ok(n)
            }
        }
    }

    /// An IRI that stands whole where a predicate comes.
    fn whole_predicate(&mut self, piece: &[u8]) -> Result<usize, AllocError>
        requires { self.old.within ≡ within.Between }
        ensures bound { IfOk result (λ n. n ≤ length piece.now) }
        ensures run { IfOk result (λ n. RunsOver self.old self.new (take n piece.now)) }
    {
        match iri_front(self.alloc, piece)? {
            None => Ok(0),
            Some((name, n)) => match mem::replace(&mut self.place, Place::End) {
                Place::Predicate(subject) => {
                    self.place = Place::Object(subject, name);
                    Ok(n)
                }
                other => {
                    self.place = other;
                    Ok(0)
                }
            },
        }
    }

    /// The end of a line after a statement.
    fn line_end(&mut self, piece: &[u8]) -> usize
        requires between { self.old.within ≡ within.Between }
        requires place { self.old.place ≡ at.End }
        ensures bound { result ≤ length piece.now }
        ensures run { RunsOver self.old self.new (take result piece.now) }
    {
        if piece.len() == 0 || piece[0] != b'\n' {
            return 0;
        }
        self.place = Place::Subject;
        1
    }

    /// Takes a token that stands whole at the front, and ends within it: an IRI where a subject or
    /// a predicate comes, or the line feed after a statement. Answers how many bytes it has, and 0
    /// where there is none, and then nothing has changed.
    pub fn whole_token(&mut self, piece: &[u8]) -> Result<usize, AllocError>
        requires { self.old.within ≡ within.Between }
        ensures bound { IfOk result (λ n. n ≤ length piece.now) }
        ensures run { IfOk result (λ n. RunsOver self.old self.new (take n piece.now)) }
    {
        match &self.place {
            Place::Subject => self.whole_subject(piece),
            Place::Predicate(_) => self.whole_predicate(piece),
            Place::End => Ok(self.line_end(piece)),
            _ => Ok(0),
        }
    }

    /// Takes an object that stands whole at the front with the dot of its statement, where one comes
    /// and one does: what was read then, and how many bytes they have. So many were read before.
    pub fn take_object(
        &mut self,
        piece: &[u8],
        read: u64,
    ) -> Result<Option<(Parts, usize)>, AllocError>
        ensures { IfOk result (λ o. TakesObject self.old self.new piece.now read o) }
    {
        match (&self.within, &self.place) {
            (Within::Between, Place::Object(_, _)) => {}
            _ => return Ok(None),
        }
        match object_front(self.alloc, piece)? {
            None => Ok(None),
            Some((object, n)) => match mem::replace(&mut self.place, Place::End) {
                Place::Object(subject, predicate) => Ok(Some((
                    Parts {
                        subject,
                        predicate,
                        object,
                        end: read.saturating_add(n as u64),
                    },
                    n,
                ))),
                other => {
                    drop(mem::replace(&mut self.place, other));
                    Ok(None)
                }
            },
        }
    }
}
