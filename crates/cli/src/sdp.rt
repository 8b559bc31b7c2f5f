//! What a client receives, as a session description (RFC 8866) that it can open.
//!
//! Read `session` first, the whole text; `stream` is one stream of it, and `encoding` what is read of its encodings.

mod encoding;
mod session;
mod stream;

pub use encoding::is_video;
pub use session::{Session, session_text};
pub use stream::Stream;
