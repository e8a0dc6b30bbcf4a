//! Laws of the definition, proved: the body is empty, and the contract is the law.
ghost use Rattle.std.specs.Prelude.{◌↔◌, ℕ, List};
ghost use Rattle.gs_body.specs.Bodies.{Statement, IsBroken};
ghost use Rattle.gs_turtle.specs.Documents.{SaysWhole, IsBody, meaning_by};
ghost use Rattle.gs_turtle.specs.Faults.{SaysUpTo, IsFaultyAfter, BreaksAfter};

/// A body has no fault and says these statements exactly where its tokens, each the longest at its
/// place, are those of a document that has them.
pub fn body_is_read()
    ensures { (b x : List ℕ) (r : ℕ) (S : List Statement) → (SaysWhole b r x S ↔ IsBody b r x S) }
{}

/// A text has a fault, of its tokens or of the grammar, and says these statements before it, exactly
/// where it is no body and these are the statements of the longest prefix of its tokens that is
/// whole statements. A fault of the grammar is placed where the last of these ends.
pub fn faulty_body_is_read()
    ensures front { (b x : List ℕ) (r : ℕ) (S : List Statement) → (SaysUpTo b r x S ↔ IsFaultyAfter b r x S) }
    ensures place { (b x : List ℕ) (r at : ℕ) → IsBroken (meaning_by b r x) at → BreaksAfter b r x at }
{}
