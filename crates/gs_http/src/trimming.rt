//! White space around a value, and words in any case.
ghost use Rattle.std.specs.Prelude.{◌≡◌, reverse};
ghost use Rattle.std.specs.Str.{str_eq_ignore_ascii_case};
ghost use Rattle.httparse.specs.Grammar.{is_ows, skip_ows, trim_ows};

fn is_ows(b: u8) -> bool
    ensures { result ≡ is_ows b }
{
    b == b' ' || b == b'\t'
}

/// The bytes from the first that is no space or tab.
fn trim_start(value: &[u8]) -> &[u8]
    ensures { result.now ≡ skip_ows value.now }
{
    let mut rest = value;
    while let Some((first, tail)) = rest.split_first() {
        if !is_ows(*first) {
            return rest;
        }
        rest = tail;
    }
    rest
}

/// The bytes up to the last that is no space or tab.
fn trim_end(value: &[u8]) -> &[u8]
    ensures { result.now ≡ reverse (skip_ows (reverse value.now)) }
{
    let mut rest = value;
    while let Some((last, front)) = rest.split_last() {
        if !is_ows(*last) {
            return rest;
        }
        rest = front;
    }
    rest
}

/// The bytes without the spaces and tabs at both ends.
pub fn trim(value: &[u8]) -> &[u8]
    ensures { result.now ≡ trim_ows value.now }
{
    trim_end(trim_start(value))
}

/// Whether two words differ in the case of ASCII letters alone.
pub fn is_same_word(a: &[u8], b: &[u8]) -> bool
    ensures { result ≡ str_eq_ignore_ascii_case a.now b.now }
{
    a.eq_ignore_ascii_case(b)
}
