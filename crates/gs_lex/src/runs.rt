//! Runs between tokens: white space, and the plain characters of a comment.
ghost use Rattle.std.specs.Prelude.{◌≡◌, ◌≤◌, ◌<◌, length};
ghost use Rattle.gs_automaton.specs.Classes as class;
ghost use Rattle.gs_automaton.specs.Runs.{AllFrom};
ghost use Rattle.gs_lex.specs.Runs as spec;

fn is_plain_comment(byte: u8) -> bool
    ensures { result ≡ spec.plain_comment byte }
{
    byte < 128 && !(byte == b'\n' || byte == b'\r')
}

/// White space: a space, a tab, a carriage return or a line feed.
pub fn is_space(byte: u8) -> bool
    ensures { result ≡ class.is_ws byte }
{
    byte == b' ' || byte == b'\t' || byte == b'\r' || byte == b'\n'
}

/// Where a run in a comment ends.
pub fn comment_run(text: &[u8], from: usize) -> usize
    requires { from ≤ length text.now }
    ensures after { from ≤ result }
    ensures within { result ≤ length text.now }
    ensures plain { AllFrom spec.plain_comment text.now from result }
{
    for i in from..text.len() {
        if !is_plain_comment(text[i]) {
            return i;
        }
    }
    text.len()
}

/// Where white space ends.
#[inline(always)]
pub fn space_run(text: &[u8], from: usize) -> usize
    requires { from ≤ length text.now }
    ensures after { from ≤ result }
    ensures within { result ≤ length text.now }
    ensures plain { AllFrom class.is_ws text.now from result }
{
    for i in from..text.len() {
        if !is_space(text[i]) {
            return i;
        }
    }
    text.len()
}
