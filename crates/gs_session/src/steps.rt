//! What a step of a session did.
use crate::outcomes::Next;
use crate::phases::Phase;

/// What a step of a session did.
#[derive(Drop)]
pub enum Step {
    /// No event.
    Silent(Next),
    /// One event.
    Made(Next),
    /// Nothing: more input is wanted, or the connection has ended.
    Wait(Phase),
}
