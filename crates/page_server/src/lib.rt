//! A window through which browsers and monitors look: texts of now, over HTTP/1.1 (RFC 9110, RFC 9112), on a stream that doesn't
//! wait. What comes over it only says which text goes out.
#![tactic(auto)]

mod hosts;
mod page_connection;
mod page_text;
mod pages;

pub use hosts::is_known_host;
pub use page_connection::{PageConnection, TOO_MANY};
pub use pages::{PageTexts, Pages};
