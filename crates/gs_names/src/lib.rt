//! What a request names: its target, the type of its body, the type of its reply. No event is made here.
#![tactic(auto)]

mod accept;
mod content;
mod laws;
mod media;
mod places;
mod routes;
mod targets;
mod words;

pub use accept::reply_type;
pub use content::body_type;
pub use laws::tested_name_is_a_name;
pub use media::{BodyType, Media, ReplyType};
pub use places::Places;
pub use routes::Route;
pub use targets::{Goal, read_target};
