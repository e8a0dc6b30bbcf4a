//! Tokens that are known at once, as most are: no longer one may come, whatever the text becomes.
ghost use Rattle.std.specs.Prelude.{IfSome};
ghost use Rattle.gs_lex.specs.Plains.{IsPlainToken, IsPlainAhead};

use crate::kinds::TokenKind;
use crate::runs::space_run;
use crate::words::token_kind;
use gs_automaton::{Scan, over_front};

/// White space, and a token after it.
#[derive(Clone, Copy, Debug)]
pub struct Plain {
    pub kind: TokenKind,
    /// The number of bytes of white space.
    pub space: usize,
    /// The token's number of bytes.
    pub count: usize,
}

/// The kind of the token at the front, and how many bytes it has, where that is known at once.
#[inline(never)]
pub fn plain_token(rest: &[u8], updates: bool) -> Option<(TokenKind, usize)>
    ensures { IfSome result (λ t. IsPlainToken updates rest.now t.0 t.1) }
{
    if rest.len() == 0 {
        return None;
    }
    let (scan, is_last) = over_front(rest, Scan::new(updates));
    if !is_last || scan.best_len == 0 {
        return None;
    }
    match scan.best {
        None => None,
        Some(terminal) => match token_kind(updates, terminal, &rest[..scan.best_len]) {
            None => None,
            Some(kind) => Some((kind, scan.best_len)),
        },
    }
}

/// White space and a token at the front, where it is known at once.
#[inline(always)]
pub fn plain_ahead(rest: &[u8], updates: bool) -> Option<Plain>
    ensures { IfSome result (IsPlainAhead updates rest.now) }
{
    let space = space_run(rest, 0);
    match plain_token(&rest[space..], updates) {
        None => None,
        Some((kind, count)) => Some(Plain { kind, space, count }),
    }
}
