//! Laws of the definition, proved: the body is empty, and the contract is the law.
ghost use Rattle.std.specs.Prelude.{◌<◌, ◌^◌, ℕ, Bool, true, false, List, length};
ghost use Rattle.gs_lex.specs.Cuts.{HasOneCut, HasThatCut};
ghost use Rattle.gs_lex.specs.Pieces.{LeadsPieces};
ghost use Rattle.gs_lex.specs.Tokens.{Gap, Lexeme};
ghost use Rattle.gs_lex.specs.declared.pieces.PieceLexer.{PieceLexer};
ghost use Rattle.gs_lex.specs.Spans.{IsCutIntoSpans};

/// A text is cut in one way: its tokens, and how it ends, are determined.
pub fn text_has_one_cut()
    ensures { (updates : Bool) (x : List ℕ) → HasOneCut updates x }
{}

/// Each text has a cut, from each place, and `text_cut_from` computes it.
pub fn text_has_a_cut()
    ensures { (updates : Bool) (m : Gap) (n last : ℕ) (x : List ℕ) → HasThatCut updates m n last x }
{}

/// The tokens of a text are its spans, one after the other, where the text has fewer than 2^64
/// bytes.
pub fn tokens_are_spans()
    ensures { (updates : Bool) (x : List ℕ) → length x < 2 ^ 64 → IsCutIntoSpans updates x }
{}

/// A text that has not ended may end where it stands: what led a lexer of pieces there leads it to
/// the end of the whole text.
pub fn a_text_may_end()
    ensures { (updates : Bool) (lexer : PieceLexer) (x : List ℕ) (ts : List Lexeme)
        → LeadsPieces false updates lexer x ts → LeadsPieces true updates lexer x ts }
{}
