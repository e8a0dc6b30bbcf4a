//! Requests that are drawn, with their bytes.
use crate::documents::{Language, document, faulty_update, update};
use crate::draws::Draws;
use crate::letters::{Draft, letter_of};
use crate::requests::{Deed, Edit, GRAPHS, Method, Request, Write};
use crate::triples::Triples;
use std::alloc::{AllocError, Global};

/// The targets of the graphs.
const TARGETS: [&str; GRAPHS] = [
    "/store?default",
    "/graphs/a",
    "/store?graph=http://e/b",
    "/store?graph=http%3A%2F%2Fe%2Fc%23d",
];

/// The target of all graphs together, and what may be accepted of it.
const STORE: &str = "/store";

const QUADS_ACCEPTS: [&str; 4] = [
    "",
    "Accept: application/n-quads\r\n",
    "Accept: text/turtle, APPLICATION/*;q=0.1\r\n",
    "Accept: application/n-triples;q=0, */*\r\n",
];

const LINES_TYPES: [&str; 2] = [
    "Content-Type: application/n-triples\r\n",
    "content-type: Application/N-Triples; charset=\"utf-8\"\r\n",
];

const TURTLE_TYPES: [&str; 2] = [
    "Content-Type: text/turtle\r\n",
    "Content-Type: text/Turtle ; charset=UTF-8\r\n",
];

const UPDATE_TYPE: &str = "Content-Type: application/sparql-update\r\n";

/// Requests that are denied by their heads: method, target and fields, the status, the field Allow of
/// the reply, and whether the connection ends in any case; such a head frames its body itself.
type Row = (
    &'static str,
    &'static str,
    &'static str,
    u16,
    &'static str,
    bool,
);

const ALL_METHODS: &str = "GET, HEAD, PUT, POST, DELETE, PATCH";

const STORE_METHODS: &str = "GET, HEAD, POST";

const DENIALS: [Row; 20] = [
    ("GET", "/nope", "", 404, "", false),
    ("DELETE", "/graphs/", "", 404, "", false),
    ("DELETE", "/store", "", 405, STORE_METHODS, false),
    ("PATCH", "/store", UPDATE_TYPE, 405, STORE_METHODS, false),
    (
        "GET",
        "/store",
        "Accept: application/n-triples, text/turtle\r\n",
        406,
        "",
        false,
    ),
    (
        "HEAD",
        "/store",
        "Accept: application/n-quads;q=0, */*\r\n",
        406,
        "",
        false,
    ),
    (
        "GET",
        "/graphs/a",
        "Accept: application/n-quads\r\n",
        406,
        "",
        false,
    ),
    ("OPTIONS", "/store?default", "", 405, ALL_METHODS, false),
    (
        "PUT",
        "/graphs/a",
        "Content-Type: text/plain\r\n",
        415,
        "",
        false,
    ),
    ("POST", "/store?default", UPDATE_TYPE, 415, "", false),
    (
        "PATCH",
        "/graphs/a",
        "Content-Type: text/turtle\r\n",
        415,
        "",
        false,
    ),
    ("PATCH", "/graphs/a", "", 415, "", false),
    ("GET", "/graphs/a", "Accept: image/png\r\n", 406, "", false),
    (
        "HEAD",
        "/store?default",
        "Accept: text/turtle;q=0, */*;q=0\r\n",
        406,
        "",
        false,
    ),
    ("GET", "/store?graph=x", "", 400, "", false),
    (
        "DELETE",
        "/store?default&graph=http://e/b",
        "",
        400,
        "",
        false,
    ),
    ("GET", "/store?default", "Host: b\r\n", 400, "", true),
    (
        "PUT",
        "/store?default",
        "Transfer-Encoding: gzip\r\n",
        501,
        "",
        true,
    ),
    (
        "PUT",
        "/store?default",
        "Content-Length: 1x\r\n",
        400,
        "",
        true,
    ),
    (
        "PUT",
        "/store?default",
        "Content-Type: text/turtle\r\nContent-Length: 67108865\r\n",
        413,
        "",
        true,
    ),
];

fn word_of(method: Method) -> &'static str {
    match method {
        Method::Get => "GET",
        Method::Head => "HEAD",
        Method::Put => "PUT",
        Method::Post => "POST",
        Method::Delete => "DELETE",
        Method::Patch => "PATCH",
    }
}

/// A request without fields and body. Half of all are for the last graph, so that they meet.
fn bare_draft(alloc: Global, draws: &mut Draws, method: Method, deed: Deed) -> Draft {
    let graph = draws.below(6).min(GRAPHS.saturating_sub(1));
    Draft {
        method,
        graph,
        is_of_all: false,
        deed,
        is_turtle: false,
        word: word_of(method),
        target: TARGETS.get(graph).copied().unwrap_or_default(),
        fields: "",
        accept: "",
        body: Vec::new(alloc),
        is_framed: false,
        closes: draws.is_one_in(40),
        expects: draws.is_one_in(8),
    }
}

/// An upload, with a fault in its body or without.
fn upload_draft(
    alloc: Global,
    draws: &mut Draws,
    method: Method,
    has_fault: bool,
) -> Result<Draft, AllocError> {
    let triples = Triples::drawn(draws, 8);
    let deed = if has_fault {
        Deed::Fault(400)
    } else if method == Method::Put {
        Deed::Write(Write::Replace(triples))
    } else {
        Deed::Write(Write::Add(triples))
    };
    let mut draft = bare_draft(alloc, draws, method, deed);
    if draws.is_one_in(2) {
        draft.fields = draws.pick(&TURTLE_TYPES);
        draft.body = document(alloc, draws, Language::Turtle, triples, has_fault)?;
    } else {
        draft.fields = draws.pick(&LINES_TYPES);
        draft.body = document(alloc, draws, Language::NTriples, triples, has_fault)?;
    }
    Ok(draft)
}

fn drawn_edit(draws: &mut Draws) -> Edit {
    Edit {
        inserts: draws.is_one_in(2),
        triples: Triples::drawn(draws, 5),
    }
}

fn patch_draft(alloc: Global, draws: &mut Draws) -> Result<Draft, AllocError> {
    let first = drawn_edit(draws);
    let second = drawn_edit(draws);
    let deed = Deed::Write(Write::Change(first, second));
    let mut draft = bare_draft(alloc, draws, Method::Patch, deed);
    draft.fields = UPDATE_TYPE;
    draft.body = update(alloc, draws, first, second)?;
    Ok(draft)
}

fn faulty_patch_draft(alloc: Global, draws: &mut Draws) -> Result<Draft, AllocError> {
    let edit = drawn_edit(draws);
    let faulty = faulty_update(alloc, draws, edit)?;
    let deed = Deed::Fault(faulty.status);
    let mut draft = bare_draft(alloc, draws, Method::Patch, deed);
    draft.fields = UPDATE_TYPE;
    draft.body = faulty.text;
    Ok(draft)
}

/// A request whose body, if it has one, says nothing.
fn quiet_draft(
    alloc: Global,
    draws: &mut Draws,
    method: Method,
    deed: Deed,
) -> Result<Draft, AllocError> {
    let mut draft = bare_draft(alloc, draws, method, deed);
    if draws.is_one_in(8) {
        let triples = Triples::drawn(draws, 3);
        draft.body = document(alloc, draws, Language::Turtle, triples, true)?;
    }
    if matches!(deed, Deed::Read | Deed::Look) && draws.is_one_in(4) {
        draft.accept = "Accept: text/turtle, application/n-triples;q=0\r\n";
        draft.is_turtle = true;
    }
    Ok(draft)
}

/// A GET or a HEAD of all graphs.
fn whole_draft(
    alloc: Global,
    draws: &mut Draws,
    method: Method,
    deed: Deed,
) -> Result<Draft, AllocError> {
    let mut draft = quiet_draft(alloc, draws, method, deed)?;
    draft.is_of_all = true;
    draft.target = STORE;
    draft.accept = draws.pick(&QUADS_ACCEPTS);
    draft.is_turtle = false;
    Ok(draft)
}

fn denied_draft(alloc: Global, draws: &mut Draws) -> Result<Draft, AllocError> {
    let number = draws.below(DENIALS.len());
    let (word, target, fields, status, allow, closes) = DENIALS
        .get(number)
        .copied()
        .unwrap_or(("GET", "/nope", "", 404, "", false));
    let mut draft = bare_draft(alloc, draws, Method::Get, Deed::Denied(status, allow));
    draft.word = word;
    draft.target = target;
    draft.fields = fields;
    draft.is_framed = closes;
    if !closes && draws.is_one_in(3) {
        let triples = Triples::drawn(draws, 3);
        draft.body = document(alloc, draws, Language::NTriples, triples, false)?;
    }
    Ok(draft)
}

fn drawn_draft(alloc: Global, draws: &mut Draws) -> Result<Draft, AllocError> {
    match draws.below(45) {
        0..7 => upload_draft(alloc, draws, Method::Put, false),
        7..15 => upload_draft(alloc, draws, Method::Post, false),
        15..24 => quiet_draft(alloc, draws, Method::Get, Deed::Read),
        24..27 => quiet_draft(alloc, draws, Method::Head, Deed::Look),
        27..30 => quiet_draft(alloc, draws, Method::Delete, Deed::Write(Write::Remove)),
        30..35 => patch_draft(alloc, draws),
        35 => upload_draft(alloc, draws, Method::Put, true),
        36 => upload_draft(alloc, draws, Method::Post, true),
        37 => faulty_patch_draft(alloc, draws),
        38..42 => whole_draft(alloc, draws, Method::Get, Deed::Read),
        42 => whole_draft(alloc, draws, Method::Head, Deed::Look),
        _ => denied_draft(alloc, draws),
    }
}

/// A request that was drawn, and its bytes.
#[derive(Drop)]
pub struct Drawn {
    pub request: Request,
    pub bytes: Vec<u8>,
}

/// The next request of a connection of which there are so many bytes.
pub fn drawn_request(alloc: Global, draws: &mut Draws, start: usize) -> Result<Drawn, AllocError> {
    let draft = drawn_draft(alloc, draws)?;
    let letter = letter_of(alloc, draws, &draft)?;
    let is_denied = matches!(draft.deed, Deed::Denied(_, _));
    let ends_denied = is_denied && (letter.announces || draft.is_framed);
    let request = Request {
        method: draft.method,
        graph: draft.graph,
        is_of_all: draft.is_of_all,
        deed: draft.deed,
        is_turtle: draft.is_turtle,
        closes: draft.closes || ends_denied,
        awaits: draft.expects && letter.announces && !is_denied,
        head_end: start.saturating_add(letter.head_length),
        end: start.saturating_add(letter.bytes.len()),
    };
    Ok(Drawn {
        request,
        bytes: letter.bytes,
    })
}
