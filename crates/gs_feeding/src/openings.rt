//! What an upload or a patch was opened with.
ghost use Rattle.std.specs.Prelude.{◌≡◌, true};
ghost use Rattle.gs_model.specs.Iris.{is_absolute};
ghost use Rattle.gs_feeding.specs.Bases.{base_under, name_in as name_of, target_name};
ghost use Rattle.gs_feeding.specs.SeatTexts.{opened_by, patch_opening};

use gs_event::{Action, UploadKind};
use gs_term::{GraphName, Target};

/// The base of a text for the default graph, and of one for a graph that has no name yet.
const STORE: &str = "http://localhost/store";

/// The number of the request that opened an upload or a patch, and the name of the graph that it
/// is for, if it has one.
#[derive(Drop)]
pub struct Opening {
    pub request: u64,
    pub target: Option<GraphName>,
}

/// The name that a target has.
fn name_in(target: Target) -> Option<GraphName>
    ensures { result ≡ name_of target }
{
    match target {
        Target::Default => None,
        Target::Named(name) => Some(name),
    }
}

/// The name of the graph that an upload is for, if it has one.
fn target_of(kind: UploadKind) -> Option<GraphName>
    ensures { result ≡ target_name kind }
{
    match kind {
        UploadKind::Put(target) => name_in(target),
        UploadKind::Post(target) => name_in(target),
        UploadKind::New => None,
    }
}

impl Opening {
    /// The upload that an action opened, by the number that the store gave to it; no other action
    /// opened one. Takes no memory.
    pub fn by(action: Action, request: u64) -> Option<Opening>
        ensures { result ≡ opened_by action request }
    {
        match action {
            Action::Open(kind, _) => Some(Opening {
                request,
                target: target_of(kind),
            }),
            _other => None,
        }
    }

    /// The patch of a target, by the number that the store gave to it. Takes no memory.
    pub fn of_patch(target: Target, request: u64) -> Opening
        ensures { result ≡ patch_opening target request }
    {
        Opening {
            request,
            target: name_in(target),
        }
    }

    /// The base of the text that is fed to the upload, or given to the patch.
    pub fn base(&self) -> &str
        ensures value { result.now ≡ base_under self.now.target }
        ensures absolute { is_absolute result.now ≡ true }
    {
        match &self.target {
            None => STORE,
            Some(name) => match str::from_utf8(name.as_bytes()) {
                Ok(text) => text,
                Err(_) => unreachable!(),
            },
        }
    }
}
