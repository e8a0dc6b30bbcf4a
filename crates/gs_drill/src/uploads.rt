//! The uploads and the patches of all seats, and what was fed to each upload.
ghost use Rattle.std.specs.Prelude.{◌≡◌, length, [], ℕ, List, true, false, is_some, None, Some, option_map, MatchOption, IfOk, replicate};
ghost use Rattle.std.specs.List.{slice_get, slice_set};
ghost use Rattle.gs_feeding.specs.declared.openings.Opening.{Opening as AnOpening};
ghost use Rattle.gs_drill.specs.Standing.{AreFed, FeedsAt, SeatTextEnds};
ghost use Rattle.gs_drill.specs.Following.{openings_after, patches_after, patch_opened_by, texts_after};
ghost use Rattle.gs_feeding.specs.Receiving.{Fed, IsIn};
ghost use Rattle.gs_feeding.specs.SeatTexts.{FeedsText, first_context, opened_by};

use gs_event::{Action, Answer, Event};
use gs_feeding::{Opening, SeatText};
use gs_triple_lists::TripleList;
use gs_upload::Language;
use std::alloc::{AllocError, Global};
use std::mem;

/// For each seat of a store what opened the upload that it has, what opened the patch that it has,
/// and what was fed to the upload.
#[derive(Drop)]
pub struct Uploads {
    /// Texts are fed in pieces of so many bytes; 0 is whole.
    pub cut: u64,
    pub openings: Vec<Option<Opening>>,
    pub patches: Vec<Option<Opening>>,
    pub texts: Vec<SeatText>,
}

impl Uploads {
    /// So many seats without an upload and without a patch.
    pub fn new(alloc: Global, seats: u16) -> Result<Uploads, AllocError>
        ensures cut { IfOk result (λ u. u.cut ≡ 0) }
        ensures openings { IfOk result (λ u. u.openings.items ≡ replicate seats None) }
        ensures patches { IfOk result (λ u. u.patches.items ≡ replicate seats None) }
        ensures texts { IfOk result (λ u. u.texts.items ≡ replicate seats SeatText.Unfed) }
    {
        let mut openings = Vec::with_capacity(alloc, usize::from(seats))?;
        let mut patches = Vec::with_capacity(alloc, usize::from(seats))?;
        let mut texts = Vec::with_capacity(alloc, usize::from(seats))?;
        for _ in 0..seats {
            openings.push(None)?;
            patches.push(None)?;
            texts.push(SeatText::Unfed)?;
        }
        Ok(Uploads {
            cut: 0,
            openings,
            patches,
            texts,
        })
    }

    /// Whether the seat has an upload, if there is such a seat.
    pub fn has_upload(&self, seat: u16) -> Option<bool>
        ensures { result ≡ option_map is_some (slice_get self.now.openings.items seat) }
    {
        match self.openings.get(usize::from(seat)) {
            Some(opening) => Some(opening.is_some()),
            None => None,
        }
    }

    /// Whether a text in this language may be fed to the seat: all texts of an upload are in one.
    pub fn takes(&self, seat: u16, language: Language) -> bool
        ensures same { result ≡ true → (fed : ℕ → Fed) → AreFed self.now.texts.items fed
            → IsIn language (fed seat) }
        ensures other { result ≡ false → (fed : ℕ → Fed) → AreFed self.now.texts.items fed
            → ¬ (IsIn language (fed seat)) }
    {
        let Some(held) = self.texts.get(usize::from(seat)) else {
            return true;
        };
        match held.language() {
            Some(first) => first == language,
            None => true,
        }
    }

    /// What opened the upload of a seat is this.
    fn set_opening(&mut self, seat: u16, opening: Option<Opening>)
        ensures openings { self.new.openings.items ≡ slice_set self.old.openings.items seat opening }
        ensures patches { self.new.patches.items ≡ self.old.patches.items }
        ensures texts { self.new.texts.items ≡ self.old.texts.items }
        ensures cut { self.new.cut ≡ self.old.cut }
    {
        let seat = usize::from(seat);
        if seat < self.openings.len() {
            self.openings[seat] = opening;
        }
    }

    /// What opened the patch of a seat is this.
    fn set_patch(&mut self, seat: u16, patch: Option<Opening>)
        ensures openings { self.new.openings.items ≡ self.old.openings.items }
        ensures patches { self.new.patches.items ≡ slice_set self.old.patches.items seat patch }
        ensures texts { self.new.texts.items ≡ self.old.texts.items }
        ensures cut { self.new.cut ≡ self.old.cut }
    {
        let seat = usize::from(seat);
        if seat < self.patches.len() {
            self.patches[seat] = patch;
        }
    }

    /// An upload or a patch begins or ends.
    fn reset(&mut self, seat: u16, opening: Option<Opening>, patch: Option<Opening>)
        ensures openings { self.new.openings.items ≡ slice_set self.old.openings.items seat opening }
        ensures patches { self.new.patches.items ≡ slice_set self.old.patches.items seat patch }
        ensures texts { self.new.texts.items ≡ slice_set self.old.texts.items seat SeatText.Unfed }
        ensures cut { self.new.cut ≡ self.old.cut }
    {
        self.set_opening(seat, opening);
        self.set_patch(seat, patch);
        self.put(seat, SeatText::Unfed);
    }

    /// An action opened an upload or a patch, under this request.
    fn begin(&mut self, seat: u16, action: Action, request: u64)
        ensures openings { self.new.openings.items
            ≡ slice_set self.old.openings.items seat (opened_by action request) }
        ensures patches { self.new.patches.items
            ≡ slice_set self.old.patches.items seat (patch_opened_by action request) }
        ensures texts { self.new.texts.items ≡ slice_set self.old.texts.items seat SeatText.Unfed }
        ensures cut { self.new.cut ≡ self.old.cut }
    {
        match action {
            Action::OpenPatch(target, _) => {
                self.reset(seat, None, Some(Opening::of_patch(target, request)));
            }
            other => self.reset(seat, Opening::by(other, request), None),
        }
    }

    /// Follows what a store answered. Takes no memory: an opening takes its name out of the event.
    pub fn follow(&mut self, event: Event, answer: &Answer)
        ensures openings { self.new.openings.items ≡ openings_after self.old.openings.items event answer.now }
        ensures patches { self.new.patches.items ≡ patches_after self.old.patches.items event answer.now }
        ensures texts { self.new.texts.items ≡ texts_after self.old.texts.items event answer.now }
        ensures cut { self.new.cut ≡ self.old.cut }
    {
        let Event::Seat(seat, action) = event else {
            return;
        };
        match answer {
            Answer::Opened(request) => self.begin(seat, action, *request),
            Answer::Status(_, _, _) => self.reset(seat, None, None),
            Answer::Cancelled => self.reset(seat, None, None),
            _ => {}
        }
    }

    /// What was fed to a seat, which then has nothing.
    fn take(&mut self, seat: u16) -> SeatText
        ensures taken { MatchOption (slice_get self.old.texts.items seat) (result ≡ SeatText.Unfed)
            (λ b. result ≡ b) }
        ensures openings { self.new.openings.items ≡ self.old.openings.items }
        ensures patches { self.new.patches.items ≡ self.old.patches.items }
        ensures texts { self.new.texts.items ≡ slice_set self.old.texts.items seat SeatText.Unfed }
        ensures cut { self.new.cut ≡ self.old.cut }
    {
        let seat = usize::from(seat);
        if seat < self.texts.len() {
            mem::replace(&mut self.texts[seat], SeatText::Unfed)
        } else {
            SeatText::Unfed
        }
    }

    fn put(&mut self, seat: u16, text: SeatText)
        ensures openings { self.new.openings.items ≡ self.old.openings.items }
        ensures patches { self.new.patches.items ≡ self.old.patches.items }
        ensures texts { self.new.texts.items ≡ slice_set self.old.texts.items seat text }
        ensures cut { self.new.cut ≡ self.old.cut }
    {
        let seat = usize::from(seat);
        drop(if seat < self.texts.len() {
            mem::replace(&mut self.texts[seat], text)
        } else {
            text
        });
    }

    /// Feeds to the text of a seat by what opened its upload, if the seat has one.
    fn feed_text(
        &self,
        alloc: Global,
        seat: u16,
        held: SeatText,
        language: Language,
        text: &[u8],
    ) -> Result<(SeatText, TripleList), AllocError>
        ensures { IfOk result (λ p. (o : AnOpening)
            → slice_get self.now.openings.items seat ≡ Some (Some o)
            → FeedsText self.now.cut (first_context language o) held text.now p.1.items p.0) }
    {
        match self.openings.get(usize::from(seat)) {
            Some(Some(opening)) => held.feed(alloc, language, opening, text, self.cut),
            _ => Ok((held, TripleList::new(alloc))),
        }
    }

    /// Feeds a text to the upload that the seat has: what that gives.
    pub fn feed(
        &mut self,
        alloc: Global,
        seat: u16,
        language: Language,
        text: &[u8],
    ) -> Result<TripleList, AllocError>
        ensures given { IfOk result (λ given. FeedsAt self.old.cut language seat text.now
            self.old.openings.items self.old.texts.items self.new.texts.items given.items) }
        ensures openings { IfOk result (λ given. self.new.openings.items ≡ self.old.openings.items) }
        ensures patches { self.new.patches.items ≡ self.old.patches.items }
        ensures even { IfOk result (λ given. length self.new.texts.items ≡ length self.old.texts.items) }
        ensures cut { self.new.cut ≡ self.old.cut }
    {
        let held = self.take(seat);
        let (fed, given) = self.feed_text(alloc, seat, held, language, text)?;
        self.put(seat, fed);
        Ok(given)
    }

    /// The text that was fed to a seat ends: what that gives, which is nothing where it has a fault.
    pub fn finish(&mut self, alloc: Global, seat: u16) -> Result<Option<TripleList>, AllocError>
        ensures given { IfOk result (λ given. SeatTextEnds seat self.old.texts.items self.new.texts.items
            (option_map (λ ts. ts.items) given)) }
        ensures openings { IfOk result (λ given. self.new.openings.items ≡ self.old.openings.items) }
        ensures patches { self.new.patches.items ≡ self.old.patches.items }
        ensures even { IfOk result (λ given. length self.new.texts.items ≡ length self.old.texts.items) }
        ensures cut { self.new.cut ≡ self.old.cut }
    {
        let held = self.take(seat);
        let (ended, given) = held.finish(alloc)?;
        self.put(seat, ended);
        Ok(given)
    }
}
