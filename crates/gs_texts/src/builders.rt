//! Lines that are built up.
ghost use Rattle.std.specs.Prelude.{◌≡◌, ◌+◌, ◌-◌, ◌++◌, ◌<◌, ◌≤◌, ◌^◌, ◌==◌, [], length, vec_len, vec_capacity, if◌then◌else◌, IfOk, OnOk, OnErr, SomeIff};
ghost use Rattle.std.specs.Bool.{Decides};
ghost use Rattle.gs_texts.specs.Places.{LiesInBlock, text_in};
ghost use Rattle.gs_texts.specs.Lines.{IsSealedLine, line_of_texts};
ghost use Rattle.gs_texts.specs.Building.{built_over, with_tail, with_line};

use crate::blocks::Block;
use crate::lines::Lines;
use crate::parts::{LinePlaces, Parts, put_together};
use crate::places::Place;
use crate::texts::Texts;
use std::alloc::{AllocError, Global};
use std::marker::Model;

/// Room that is left after lines: where no more than 236 bytes are due before them, as the head of a
/// reply, which has 139 at most, these and the frame of a chunk go around the lines in their memory.
const FRAME_ROOM: usize = 256;

/// Lines that are built up from places of texts, with a tail that each line gets. A contract sees the
/// blocks of the texts, the tail, and the bytes of the lines.
#[derive(Drop)]
pub struct LinesBuilder<'a> {
    alloc: Global,
    texts: &'a Texts,
    /// What lines have after their texts, one after another.
    tails: Block,
    /// Where the tail of the lines that follow begins.
    start: usize,
    lines: Vec<LinePlaces>,
    /// How many bytes the lines have.
    size: usize,
    /// Whether all their texts are in sealed blocks.
    is_sealed: bool,
}

impl<'a> Model for LinesBuilder<'a> {
    ghost use Rattle.gs_texts.specs.Building.{Built, built_code, built, IsBuilt};

    ghost Value = { Built };

    ghost coded = { built_code };

    ghost view = { λ b. built b.texts.now b.tails b.start b.lines.items };

    ghost invariant = { λ b. IsBuilt b.texts.now b.tails b.start b.lines.items b.size b.is_sealed };
}

/// Room for lines of so many bytes, and for 256 more, but none where there is no line.
fn room_for(alloc: Global, size: usize) -> Result<Vec<u8>, AllocError>
    ensures empty { IfOk result (λ bytes. bytes.items ≡ []) }
    ensures room { IfOk result (λ bytes. vec_len bytes + size ≤ vec_capacity bytes) }
    ensures exact { IfOk result (λ bytes. vec_capacity bytes ≡ (if size == 0 then 0 else size + 256)) }
{
    if size == 0 {
        return Ok(Vec::new(alloc));
    }
    let Some(room) = size.checked_add(FRAME_ROOM) else {
        return Err(AllocError);
    };
    Vec::with_capacity(alloc, room)
}

/// Whether the texts of a line are all in sealed blocks.
fn is_sealed_line(texts: &Texts, line: LinePlaces) -> bool
    ensures { Decides result (IsSealedLine texts.now line) }
{
    texts.is_sealed(line.subject) && texts.is_sealed(line.predicate) && texts.is_sealed(line.object)
}

impl<'a> LinesBuilder<'a> {
    /// No lines of these texts, with room for the places of so many, and an empty tail.
    pub fn new(
        alloc: Global,
        texts: &'a Texts,
        count: usize,
    ) -> Result<LinesBuilder<'a>, AllocError>
        ensures { IfOk result (λ b. b ≡ built_over texts.now) }
    {
        Ok(LinesBuilder {
            alloc,
            texts,
            tails: Block::new(alloc),
            start: 0,
            lines: Vec::with_capacity(alloc, count)?,
            size: 0,
            is_sealed: true,
        })
    }

    /// Gives the lines that follow an empty tail. Takes no memory.
    pub fn begin(&mut self)
        ensures { self.new ≡ with_tail self.old [] }
    {
        self.start = self.tails.len();
    }

    /// Adds bytes to the tail of the lines that follow.
    pub fn extend_tail(&mut self, bytes: &[u8]) -> Result<(), AllocError>
        ensures ok { OnOk result (self.new ≡ with_tail self.old (self.old.tail ++ bytes.now)) }
        ensures err { OnErr result (self.new ≡ self.old) }
    {
        self.tails.push(bytes)
    }

    /// How many bytes the tail of the lines that follow has.
    fn tail_count(&self) -> usize
        ensures { result ≡ length self.now.tail }
    {
        self.tails.len() - self.start
    }

    /// The bytes of the lines with one more whose texts stand at these places, where 64 bits can count
    /// them.
    #[tactic(auto, using(crate::proofs::LineLemmas::line_length))]
    fn size_with(&self, subject: Place, predicate: Place, object: Place) -> Option<usize>
        requires subject { LiesInBlock self.now.blocks subject }
        requires predicate { LiesInBlock self.now.blocks predicate }
        requires object { LiesInBlock self.now.blocks object }
        ensures { let line = line_of_texts (text_in self.now.blocks subject)
            (text_in self.now.blocks predicate) (text_in self.now.blocks object) self.now.tail in
            SomeIff result (length self.now.items + length line < 2 ^ 64)
            (length self.now.items + length line) }
    {
        let tail = self.tail_count();
        let texts = subject.length() + predicate.length() + object.length() + 3;
        self.size.checked_add(texts)?.checked_add(tail)
    }

    /// Adds the line whose three texts stand at these places.
    pub fn push(
        &mut self,
        subject: Place,
        predicate: Place,
        object: Place,
    ) -> Result<(), AllocError>
        requires subject { LiesInBlock self.old.blocks subject }
        requires predicate { LiesInBlock self.old.blocks predicate }
        requires object { LiesInBlock self.old.blocks object }
        ensures ok { OnOk result (self.new ≡ with_line self.old (text_in self.old.blocks subject)
            (text_in self.old.blocks predicate) (text_in self.old.blocks object)) }
        ensures err { OnErr result (self.new ≡ self.old) }
    {
        let Some(size) = self.size_with(subject, predicate, object) else {
            return Err(AllocError);
        };
        let line = LinePlaces {
            subject,
            predicate,
            object,
            tail_from: self.start,
            tail_count: self.tail_count(),
        };
        self.lines.push(line)?;
        self.size = size;
        self.is_sealed = self.is_sealed && is_sealed_line(self.texts, line);
        Ok(())
    }

    /// The lines. They are put together at once where one of their texts is in the open block, and later
    /// where all are in sealed ones. Memory is asked for once for their bytes and 256 more, and none for
    /// them where there is no line; and for one small block where they are put together later.
    pub fn finish(self) -> Result<Lines, AllocError>
        ensures { IfOk result (λ l. l.items ≡ self.entry.items) }
    {
        let LinesBuilder {
            alloc,
            texts,
            tails,
            lines,
            size,
            is_sealed,
            ..
        } = self;
        let mut bytes = room_for(alloc, size)?;
        if is_sealed && size > 0 {
            let texts = texts.share()?;
            return Lines::later(
                bytes,
                Parts {
                    texts,
                    tails,
                    lines,
                },
            );
        }
        put_together(texts, &tails, lines.as_slice(), &mut bytes);
        Ok(Lines::of(bytes))
    }
}
