//! The value of a field that may stand once.
ghost use Rattle.http_header.specs.Token.{lowercase};
ghost use Rattle.gs_http.specs.Fields.{kept_under};
ghost use Rattle.gs_http.specs.Values.{IsOnly};

use http_header::HeaderMap;

/// The values under a name, where one is looked for.
#[derive(Clone, Copy, Debug)]
pub enum Only<'a> {
    Absent,
    One(&'a [u8]),
    Several,
}

/// The one value under a name, which may be given in any case.
pub fn one_value<'a>(kept: &HeaderMap<&'a [u8]>, name: &str) -> Only<'a>
    ensures { IsOnly result (kept_under kept.now (lowercase name.now)) }
{
    let mut values = kept.get_all(name).iter();
    let Some(first) = values.next() else {
        return Only::Absent;
    };
    match values.next() {
        None => Only::One(*first),
        Some(_) => Only::Several,
    }
}
