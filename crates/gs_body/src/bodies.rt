//! Readers of bodies.
ghost use Rattle.std.specs.Prelude.{◌≡◌, ◌↔◌, ℕ, List, Bool, true, false, OnOk, OnErr, IfErr};
ghost use Rattle.gs_model.specs.Triples.{RdfTriple};
ghost use Rattle.gs_body.specs.Bodies.{Meaning};

use gs_model::Refusal;
use gs_triple_lists::TripleList;

/// A reader of a body that comes in pieces, cut anywhere, also inside a character or a token.
///
/// After a refusal the list is as it was before the call. Each call after a refusal, or after the
/// text has ended, answers `Closed`.
/// Where no call was refused for memory, a fault is reported by `finish` at the latest, with the
/// kind and the place of the first fault of the whole text, for every cutting.
pub trait BodyReader {
    ghost use Rattle.gs_body.specs.Feeding.{FedInto, Finishes, IsFaultOn, IsFaultAtEnd};

    // What a whole text says.
    ghost meaning_of: { Self → List ℕ → Meaning };

    // A text, in any pieces, leads a new reader here, and to having given these triples.
    ghost Leads: { Self → List ℕ → List RdfTriple → Type 0 };

    // Each call is refused from now on.
    ghost is_closed: { Self → Bool };

    /// Takes the next piece, and appends the triples of the statements that are complete now: those
    /// that every text has that begins with the longest prefix of the text so far that ends between
    /// two characters. A statement that only the first bytes of the next character would complete is
    /// given once that character ends.
    fn feed(&mut self, piece: &[u8], triples: &mut TripleList) -> Result<(), Refusal>
        ensures given { FedInto meaning_of Leads self.old self.new piece.now triples.old triples.new result }
        // The text has that fault, however it goes on.
        ensures fault { IfErr result (λ e. IsFaultOn meaning_of Leads self.old piece.now e) }
        ensures kept { OnErr result (triples.new.items ≡ triples.old.items) }
        ensures refused { OnErr result (is_closed self.new ≡ true) }
        ensures open_still { OnOk result (is_closed self.new ≡ false) }
        ensures closed { (result ≡ Err Refusal.Closed) ↔ (is_closed self.old ≡ true) }
        ensures reading { (x : List ℕ) → meaning_of self.new x ≡ meaning_of self.old x };

    /// The text ends: appends the triples that are complete by that.
    fn finish(&mut self, triples: &mut TripleList) -> Result<(), Refusal>
        ensures given { OnOk result (Finishes meaning_of Leads self.old triples.old.items triples.new.items) }
        ensures fault { IfErr result (λ e. IsFaultAtEnd meaning_of Leads self.old e) }
        ensures kept { OnErr result (triples.new.items ≡ triples.old.items) }
        ensures ended { is_closed self.new ≡ true }
        ensures closed { (result ≡ Err Refusal.Closed) ↔ (is_closed self.old ≡ true) };
}
