//! Laws of the definitions, proved: the body is empty, and the contract is the law.
ghost use Rattle.std.specs.Prelude.{◌≡◌, ◌↔◌, ℕ, List, Some, None};
ghost use Rattle.gs_lex.specs.Tokens.{Lexeme};
ghost use Rattle.gs_update_text.specs.Readings.{FindsUpdates, HasOneReading, RefusesDepartures, KeepsApart, SaysLongest, PlacesUpdateFault};
ghost use Rattle.gs_update_text.specs.Requests.{Written, OutOfProfile, IsBrokenUpdate};
ghost use Rattle.gs_update_text.specs.Texts.{request_by, IsUpdateText, LeavesText, SaysBroken, IsBrokenAfter, BreaksUpdate};

/// The machine finds what the grammar's rules say of a list of tokens, and nothing else.
pub fn update_is_read()
    ensures { (base : List ℕ) (request : ℕ) (ts : List Lexeme) → FindsUpdates base request ts }
{}

/// Tokens have at most one meaning: their operations are determined, with the end of each.
pub fn update_has_one_meaning()
    ensures { (base : List ℕ) (request : ℕ) (ts : List Lexeme) → HasOneReading base request ts }
{}

/// The machine refuses tokens as out of the profile exactly where they leave what is served, by the
/// rules, and after the same operations; and these tokens are no update.
pub fn departure_is_refused()
    ensures refused { (base : List ℕ) (request : ℕ) (ts : List Lexeme) → RefusesDepartures base request ts }
    ensures apart { (base : List ℕ) (request : ℕ) (ts : List Lexeme) → KeepsApart base request ts }
{}

/// The operations that the machine says are those of the longest prefix of the tokens that is an
/// update by the rules: all, or those before the first departure. A broken text's fault is placed at
/// the end of the last of them, where the last closing brace of that prefix ends.
pub fn departure_ends_the_longest_front()
    ensures front { (base : List ℕ) (request : ℕ) (ts : List Lexeme) → SaysLongest base request ts }
    ensures place { (base : List ℕ) (request : ℕ) (ts : List Lexeme) → PlacesUpdateFault base request ts }
{}

/// A text says these operations and has no departure exactly where its tokens, each the longest at
/// its place, are those of an update that has them.
pub fn update_text_is_read()
    ensures { (b x : List ℕ) (r : ℕ) (os : List Written)
        → ((request_by b r x ≡ (os, None)) ↔ IsUpdateText b r x os) }
{}

/// A text is refused as out of the profile, after these operations, exactly where its tokens leave
/// what is served after them.
pub fn departing_text_is_refused()
    ensures { (b x : List ℕ) (r : ℕ) (os : List Written)
        → ((request_by b r x ≡ (os, Some OutOfProfile)) ↔ LeavesText b r x os) }
{}

/// A text is broken, in its tokens or in the grammar, and says these operations before the fault,
/// exactly where it is no update and does not leave what is served, and these are the operations
/// of the longest prefix of its tokens that is an update. A fault of the grammar is placed where the
/// last of these ends.
pub fn broken_text_is_refused()
    ensures front { (b x : List ℕ) (r : ℕ) (os : List Written)
        → (SaysBroken b r x os ↔ IsBrokenAfter b r x os) }
    ensures place { (b x : List ℕ) (r at : ℕ) → IsBrokenUpdate (request_by b r x) at → BreaksUpdate b r x at }
{}
