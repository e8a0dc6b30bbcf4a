//! Methods, and which a target allows.
ghost use Rattle.std.specs.Prelude.{◌≡◌};
ghost use Rattle.gs_verdict.specs.Methods as spec;

use gs_names::Goal;

/// A method that is served.
#[derive(Clone, Copy, Debug, PartialEq)]
pub enum Method {
    Get,
    Head,
    Put,
    Post,
    Delete,
    Patch,
}

/// The methods that a target allows.
#[derive(Clone, Copy, Debug, PartialEq)]
pub enum Allow {
    /// All six.
    OfGraphs,
    /// GET, HEAD and POST.
    OfStore,
}

impl Allow {
    /// The value of the field Allow.
    pub fn text(self) -> &'static str
        ensures { result.now ≡ spec.allow_text self }
    {
        match self {
            Allow::OfGraphs => "GET, HEAD, PUT, POST, DELETE, PATCH",
            Allow::OfStore => "GET, HEAD, POST",
        }
    }

    /// What the target allows.
    pub fn of(goal: &Goal) -> Allow
        ensures { result ≡ spec.allow_of goal.now }
    {
        match goal {
            Goal::Store => Allow::OfStore,
            _ => Allow::OfGraphs,
        }
    }

    /// Whether this method is among them.
    pub fn has(self, method: Method) -> bool
        ensures { result ≡ spec.is_allowed self method }
    {
        match self {
            Allow::OfGraphs => true,
            Allow::OfStore => matches!(method, Method::Get | Method::Head | Method::Post),
        }
    }
}

/// The method of this name.
pub fn read_method(name: &[u8]) -> Option<Method>
    ensures { result ≡ spec.method_of name.now }
{
    if name == b"GET".as_slice() {
        Some(Method::Get)
    } else if name == b"HEAD".as_slice() {
        Some(Method::Head)
    } else if name == b"PUT".as_slice() {
        Some(Method::Put)
    } else if name == b"POST".as_slice() {
        Some(Method::Post)
    } else if name == b"DELETE".as_slice() {
        Some(Method::Delete)
    } else if name == b"PATCH".as_slice() {
        Some(Method::Patch)
    } else {
        None
    }
}
