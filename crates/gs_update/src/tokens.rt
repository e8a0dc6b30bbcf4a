//! What a token does to a parser, and the end of a text.
ghost use Rattle.std.specs.Prelude.{◌≡◌, [], ◌∷◌, OnOk, IfErr, ℕ, List};
ghost use Rattle.gs_lex.specs.Tokens.{Lexeme};
ghost use Rattle.gs_lex.specs.Tokens as lexer;
ghost use Rattle.gs_lex.specs.Lexemes.{lexeme_of_borrowed};
ghost use Rattle.gs_update_text.specs.Texts.{request_ended_by};
ghost use Rattle.gs_update_places.specs.Views.{rejection_at};
ghost use Rattle.gs_update.specs.Views.{last_operation_end, IsSoundParser};
ghost use Rattle.gs_update.specs.Tokens.{TakesTokens, Concludes, ReportsAfterOperation, refusal_of, request_end};

use crate::parser::UpdateParser;
use gs_lex::BorrowedToken;
use gs_model::{Fault, Refusal};
use gs_triple_values::symbol_of_borrowed;
use gs_update_places::Rejection;

/// The refusal that reports a departure.
fn refusal(parser: &UpdateParser, rejection: Rejection) -> Refusal
    ensures { result ≡ refusal_of (last_operation_end parser.now) (rejection_at rejection) }
{
    match rejection {
        Rejection::Broken(Fault::Syntax) => Refusal::Syntax(parser.last),
        Rejection::Broken(Fault::TermTooLong) => Refusal::TermTooLong,
        Rejection::OutOfProfile => Refusal::NotInProfile,
    }
}

/// One token more, and its fault.
#[inline(always)]
pub fn take_token(parser: &mut UpdateParser, token: BorrowedToken<'_>) -> Result<(), Refusal>
    requires { IsSoundParser parser.old }
    ensures ok { OnOk result (TakesTokens parser.old parser.new (lexeme_of_borrowed token.entry ∷ [])) }
    ensures fault { IfErr result (λ e. (us : List Lexeme) →
        ReportsAfterOperation (last_operation_end parser.old) e
        (request_end parser.old (lexeme_of_borrowed token.entry ∷ us))) }
{
    parser.step(symbol_of_borrowed(token))?;
    match parser.rejection() {
        None => Ok(()),
        Some(rejection) => Err(refusal(parser, rejection)),
    }
}

/// The text ends there.
pub fn conclude(parser: &mut UpdateParser) -> Result<(), Refusal>
    requires { IsSoundParser parser.old }
    ensures ok { OnOk result (Concludes parser.old parser.new []) }
    ensures fault { IfErr result (λ e.
        ReportsAfterOperation (last_operation_end parser.old) e (request_end parser.old [])) }
{
    match parser.end()? {
        None => Ok(()),
        Some(rejection) => Err(refusal(parser, rejection)),
    }
}

/// Something that is no token stands there: the refusal of a text that ends there, or, where it has
/// none, a broken grammar.
pub fn break_off(parser: &mut UpdateParser) -> Refusal
    requires { IsSoundParser parser.old }
    ensures { (n : ℕ) → ReportsAfterOperation (last_operation_end parser.old) result
        (request_ended_by (lexer.AtFault n) (request_end parser.old [])) }
{
    match conclude(parser) {
        Ok(()) => Refusal::Syntax(parser.last),
        Err(refusal) => refusal,
    }
}
