//! Why a text is no update that is served.
use gs_model::Fault;

/// Why a text is no update that is served: it is broken, or its first departure from what is
/// served is an update's all the same.
#[derive(Clone, Copy)]
pub enum Rejection {
    Broken(Fault),
    OutOfProfile,
}
