//! Statements that stand whole at the front of a piece, with their dot.
ghost use Rattle.std.specs.Prelude.{◌≡◌, ◌≤◌, length, OnOk, IfOk, IfSome};
ghost use Rattle.gs_ntread.specs.LineFronts.{written_term, IsWritten, MayBeSubject, AreBegun, begun_state, IsFeed};
ghost use Rattle.gs_ntread.specs.LineFronts.{SubjectFront, ObjectToken, ObjectFront, BegunFront, LineFront, TakesAtLine};
ghost use Rattle.gs_ntread.specs.Views.{subject_of, cursor_state};
ghost use Rattle.gs_ntread.specs.declared.parts.Within.TheVariants as within;

use crate::cursor::Cursor;
use crate::parts::{Place, Subject, Within};
use crate::wholes::blanks_to_dot;
use gs_ntterm::{Between, Name, iri_len, label_front, literal_len, short_run_len};
use gs_term::TermText;
use std::alloc::{AllocError, Global};

/// A term of a line: the canonical text of an IRI or a literal, or the label of a blank node.
#[derive(Clone, Copy)]
pub enum Written<'a> {
    Text(&'a [u8]),
    Label(&'a str),
}

/// The terms of a statement, and how many bytes it has, with its dot.
#[derive(Clone, Copy)]
pub struct Line<'a> {
    pub subject: Written<'a>,
    pub predicate: &'a [u8],
    pub object: Written<'a>,
    pub len: usize,
}

/// The subject and the predicate of a statement, and how many bytes they have, with the blanks after them.
#[derive(Clone, Copy)]
pub struct Begun<'a> {
    pub subject: Written<'a>,
    pub predicate: &'a [u8],
    pub len: usize,
}

/// What was taken where a line begins.
#[derive(Clone, Copy)]
pub enum Taken<'a> {
    Nothing,
    /// A subject and a predicate, with the blanks after them, in so many bytes.
    Begun(usize),
    /// A statement, and so many bytes of a line feed after it.
    Line(Line<'a>, usize),
}

/// The subject at the front of a line, if one stands there whole, and how many bytes it has, with the blank
/// that ends a label.
#[inline]
fn subject_front(piece: &[u8]) -> Option<(Written<'_>, usize)>
    ensures { IfSome result (λ w. SubjectFront piece.now w.0 w.1) }
{
    let n = iri_len(piece);
    if n > 0 {
        return Some((Written::Text(&piece[..n]), n));
    }
    let label = label_front(piece)?;
    Some((Written::Label(label), label.len() + 3))
}

/// The object at the front, if one stands there whole, and how many bytes it has, with the blank that ends a
/// label.
#[inline]
fn object_token(piece: &[u8]) -> Option<(Written<'_>, usize)>
    ensures { IfSome result (λ w. ObjectToken piece.now w.0 w.1) }
{
    let n = iri_len(piece);
    if n > 0 {
        return Some((Written::Text(&piece[..n]), n));
    }
    if let Some((text, n)) = literal_len(piece) {
        return Some((Written::Text(&piece[..text]), n));
    }
    let label = label_front(piece)?;
    Some((Written::Label(label), label.len() + 3))
}

/// The object at the front with the dot of its statement, if they stand there whole, and how many bytes they
/// have.
#[inline]
fn object_front(piece: &[u8]) -> Option<(Written<'_>, usize)>
    ensures { IfSome result (λ w. ObjectFront piece.now w.0 w.1) }
{
    let (object, n) = object_token(piece)?;
    let blanks = blanks_to_dot(&piece[n..])?;
    Some((object, n + blanks + 1))
}

/// The subject and the predicate at the front of a line, if they stand there whole.
#[inline]
fn begun_front(piece: &[u8]) -> Option<Begun<'_>>
    ensures { IfSome result (λ b. BegunFront piece.now b) }
{
    let (subject, n) = subject_front(piece)?;
    let start = n + short_run_len::<Between>(&piece[n..]);
    let n = iri_len(&piece[start..]);
    if n == 0 {
        return None;
    }
    let predicate = &piece[start..start + n];
    let end = start + n;
    let len = end + short_run_len::<Between>(&piece[end..]);
    Some(Begun {
        subject,
        predicate,
        len,
    })
}

/// The statement that begins so at the front, if its object and its dot stand whole after that.
#[inline]
fn line_front<'a>(piece: &'a [u8], begun: Begun<'a>) -> Option<Line<'a>>
    requires { BegunFront piece.now begun }
    ensures { IfSome result (λ l. LineFront piece.now l) }
{
    let (object, n) = object_front(&piece[begun.len..])?;
    Some(Line {
        subject: begun.subject,
        predicate: begun.predicate,
        object,
        len: begun.len + n,
    })
}

/// The subject of this text or label, in memory of its own.
fn owned_subject(alloc: Global, written: Written<'_>) -> Result<Subject, AllocError>
    requires text { IsWritten written }
    requires kind { MayBeSubject written }
    ensures { IfOk result (λ s. subject_of s ≡ written_term written.entry) }
{
    match written {
        Written::Text(text) => {
            let term = TermText::of_canonical(alloc, text)?;
            Ok(Subject::Iri(Name { term }))
        }
        Written::Label(label) => Ok(Subject::Label(String::from_str(alloc, label)?)),
    }
}

/// How many bytes the line feed at the front has, after a statement's dot, if one stands there.
#[inline]
fn feed_len(rest: &[u8]) -> usize
    ensures bound { result ≤ length rest.now }
    ensures feed { IsFeed rest.now result }
{
    if rest.len() > 0 && rest[0] == b'\n' {
        1
    } else {
        0
    }
}

impl Cursor {
    /// Goes to where an object comes, after this subject and this predicate.
    fn begin(&mut self, begun: Begun<'_>) -> Result<(), AllocError>
        requires between { self.old.within ≡ within.Between }
        requires begun { AreBegun begun.subject begun.predicate.now }
        ensures { OnOk result (cursor_state self.new
            ≡ begun_state begun.entry.subject begun.entry.predicate.now) }
    {
        let subject = owned_subject(self.alloc, begun.subject)?;
        let term = TermText::of_canonical(self.alloc, begun.predicate)?;
        self.place = Place::Object(subject, Name { term });
        Ok(())
    }

    /// Where a line begins: takes the statement that stands whole at the front, and the line feed after it, or
    /// its subject and its predicate alone where its object or its dot does not stand there whole.
    #[inline]
    pub fn take_line<'a>(&mut self, piece: &'a [u8]) -> Result<Taken<'a>, AllocError>
        ensures { IfOk result (λ t. TakesAtLine self.old self.new piece.now t) }
    {
        match (&self.within, &self.place) {
            (Within::Between, Place::Subject) => {}
            _ => return Ok(Taken::Nothing),
        }
        let Some(begun) = begun_front(piece) else {
            return Ok(Taken::Nothing);
        };
        let Some(line) = line_front(piece, begun) else {
            self.begin(begun)?;
            return Ok(Taken::Begun(begun.len));
        };
        let feed = feed_len(&piece[line.len..]);
        if feed == 0 {
            self.place = Place::End;
        }
        Ok(Taken::Line(line, feed))
    }
}
