//! Lines of terms, which are built up by numbers.
ghost use Rattle.std.specs.Prelude.{◌≡◌, ◌<◌, ◌++◌, [], length, IfOk, OnOk, OnErr};
ghost use Rattle.gs_dict.specs.Chains.{dict_entry_at};
ghost use Rattle.gs_dict.specs.Kept.{terms_of};
ghost use Rattle.gs_dict.specs.TermLines.{lines_of_terms, ending_with, with_terms, HaveTexts};
ghost use Rattle.gs_dict.specs.Numbering.{term_at, HasTerm};

use crate::chains::Entry;
use crate::numbers::TermId;
use gs_texts::{Lines, LinesBuilder, Place, Texts};
use std::alloc::{AllocError, Global};
use std::marker::Model;

/// Lines of terms of a dictionary, with a tail that each line gets. A contract sees the terms, the tail,
/// and the bytes of the lines.
#[derive(Drop)]
pub struct TermLinesBuilder<'a> {
    entries: &'a [Entry],
    lines: LinesBuilder<'a>,
}

impl<'a> Model for TermLinesBuilder<'a> {
    ghost use Rattle.gs_dict.specs.TermLines.{TermLines, term_lines_code, lines_by_numbers, HaveTexts};

    ghost Value = { TermLines };

    ghost coded = { term_lines_code };

    ghost view = { λ b. lines_by_numbers b.lines b.entries.now };

    ghost invariant = { λ b. HaveTexts b.lines.blocks b.entries.now };
}

/// Where the text of a number stands.
fn place_of(entries: &[Entry], id: TermId) -> Place
    requires { id.number < length entries.now }
    ensures { result ≡ (dict_entry_at entries.now id.number).place }
{
    entries[id.number as usize].place
}

impl<'a> TermLinesBuilder<'a> {
    /// No lines of terms that have these entries, with room for so many.
    pub(crate) fn new(
        alloc: Global,
        texts: &'a Texts,
        entries: &'a [Entry],
        count: usize,
    ) -> Result<TermLinesBuilder<'a>, AllocError>
        requires { HaveTexts texts.now entries.now }
        ensures { IfOk result (λ b. b ≡ lines_of_terms (terms_of texts.now entries.now)) }
    {
        Ok(TermLinesBuilder {
            entries,
            lines: LinesBuilder::new(alloc, texts, count)?,
        })
    }

    /// Gives the lines that follow an empty tail. Takes no memory.
    pub fn begin(&mut self)
        ensures { self.new ≡ ending_with self.old [] }
    {
        self.lines.begin();
    }

    /// Adds bytes to the tail of the lines that follow.
    pub fn extend_tail(&mut self, bytes: &[u8]) -> Result<(), AllocError>
        ensures ok { OnOk result (self.new ≡ ending_with self.old (self.old.tail ++ bytes.now)) }
        ensures err { OnErr result (self.new ≡ self.old) }
    {
        self.lines.extend_tail(bytes)
    }

    /// Adds the line of three terms, by their numbers.
    pub fn push(
        &mut self,
        subject: TermId,
        predicate: TermId,
        object: TermId,
    ) -> Result<(), AllocError>
        requires subject { HasTerm self.old.terms subject.number }
        requires predicate { HasTerm self.old.terms predicate.number }
        requires object { HasTerm self.old.terms object.number }
        ensures ok { OnOk result (self.new ≡ with_terms self.old
            (term_at self.old.terms subject.number) (term_at self.old.terms predicate.number)
            (term_at self.old.terms object.number)) }
        ensures err { OnErr result (self.new ≡ self.old) }
    {
        let subject = place_of(self.entries, subject);
        let predicate = place_of(self.entries, predicate);
        let object = place_of(self.entries, object);
        self.lines.push(subject, predicate, object)
    }

    /// The lines, whose texts stay what they are, whatever is added to the dictionary. Memory is asked for
    /// once for their bytes and 256 more, and none for them where there is no line.
    pub fn finish(self) -> Result<Lines, AllocError>
        ensures { IfOk result (λ l. l.items ≡ self.entry.items) }
    {
        self.lines.finish()
    }
}
