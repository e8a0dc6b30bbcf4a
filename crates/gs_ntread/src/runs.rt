//! Runs of bytes that change nothing but a token's text, taken in one go.
ghost use Rattle.std.specs.Prelude.{◌≡◌, ◌≤◌, length, take, IfOk};
ghost use Rattle.gs_ntread.specs.declared.parts.Within.TheVariants as within;
ghost use Rattle.gs_ntread.specs.Clauses.{RunsOver};

use crate::cursor::Cursor;
use crate::parts::Within;
use gs_ntterm::{Between, InComment, InIri, InLabel, InString, run_len, short_run_len};
use std::alloc::AllocError;

impl Cursor {
    fn run_in_iri(&mut self, piece: &[u8]) -> Result<usize, AllocError>
        requires { self.old.within ≡ within.Iri }
        ensures bound { IfOk result (λ n. n ≤ length piece.now) }
        ensures run { IfOk result (λ n. RunsOver self.old self.new (take n piece.now)) }
    {
        let n = run_len::<InIri>(piece);
        self.text.push_all(&piece[..n])?;
        Ok(n)
    }

    fn run_in_string(&mut self, piece: &[u8]) -> Result<usize, AllocError>
        requires { self.old.within ≡ within.Quoted }
        ensures bound { IfOk result (λ n. n ≤ length piece.now) }
        ensures run { IfOk result (λ n. RunsOver self.old self.new (take n piece.now)) }
    {
        let n = run_len::<InString>(piece);
        self.text.push_all(&piece[..n])?;
        Ok(n)
    }

    fn run_in_label(&mut self, piece: &[u8]) -> Result<usize, AllocError>
        requires { self.old.within ≡ within.Label }
        ensures bound { IfOk result (λ n. n ≤ length piece.now) }
        ensures run { IfOk result (λ n. RunsOver self.old self.new (take n piece.now)) }
    {
        let n = short_run_len::<InLabel>(piece);
        self.label.push_all(&piece[..n])?;
        Ok(n)
    }

    fn run_in_comment(&self, piece: &[u8]) -> usize
        requires { self.now.within ≡ within.Comment }
        ensures bound { result ≤ length piece.now }
        ensures run { RunsOver self.now self.now (take result piece.now) }
    {
        run_len::<InComment>(piece)
    }

    /// Blanks, and a token that stands whole after them.
    fn run_between(&mut self, piece: &[u8]) -> Result<usize, AllocError>
        requires { self.old.within ≡ within.Between }
        ensures bound { IfOk result (λ n. n ≤ length piece.now) }
        ensures run { IfOk result (λ n. RunsOver self.old self.new (take n piece.now)) }
    {
        let blanks = short_run_len::<Between>(piece);
        let n = self.whole_token(&piece[blanks..])?;
        Ok(blanks + n)
    }

    /// Takes the bytes at the front of a piece that only go on with what is being read, or that are
    /// a whole token, of an object with its dot, and counts them. Each other byte goes through `take`.
    #[inline]
    pub fn take_run(&mut self, piece: &[u8]) -> Result<usize, AllocError>
        ensures bound { IfOk result (λ n. n ≤ length piece.now) }
        ensures run { IfOk result (λ n. RunsOver self.old self.new (take n piece.now)) }
    {
        match self.within {
            Within::Between => self.run_between(piece),
            Within::Comment => Ok(self.run_in_comment(piece)),
            Within::Iri => self.run_in_iri(piece),
            Within::Quoted => self.run_in_string(piece),
            Within::Label => self.run_in_label(piece),
            _ => Ok(0),
        }
    }
}
