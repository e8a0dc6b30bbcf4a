//! The terms of tokens, which know no language, passed on.
pub use gs_token_terms::terms::{after, blank, simple, tagged, typed};
