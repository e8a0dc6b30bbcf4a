//! Laws of the definitions, proved: the body is empty, and the contract is the law.
ghost use Rattle.std.specs.Prelude.{ℕ, List};
ghost use Rattle.gs_lex.specs.Tokens.{Lexeme};
ghost use Rattle.gs_document.specs.Readings.{FindsDocuments, HasOneMeaning, ReportsDocument, StopsAtFront, PlacesFault};

/// The plain program finds what the grammar's rules say of a list of tokens, and nothing else.
pub fn document_is_read()
    ensures { (base : List ℕ) (request : ℕ) (ts : List Lexeme) → FindsDocuments base request ts }
{}

/// Tokens have at most one meaning: their statements are determined, with the triples of each and
/// its end.
pub fn document_has_one_meaning()
    ensures { (base : List ℕ) (request : ℕ) (ts : List Lexeme) → HasOneMeaning base request ts }
{}

/// The machine that takes symbol by symbol reports of a list of tokens what the plain program says:
/// the statements before the first fault, and which fault that is.
pub fn machine_reports_the_document()
    ensures { (base : List ℕ) (request : ℕ) (ts : List Lexeme) → ReportsDocument base request ts }
{}

/// Where the program finds a fault, the statements before it are those of the longest prefix of the
/// tokens that is whole statements by the grammar's rules. A broken text's fault is placed at the
/// end of the last of them.
pub fn fault_ends_the_longest_front()
    ensures front { (base : List ℕ) (request : ℕ) (ts : List Lexeme) → StopsAtFront base request ts }
    ensures place { (base : List ℕ) (request : ℕ) (ts : List Lexeme) → PlacesFault base request ts }
{}
