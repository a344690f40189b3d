//! Certificates of termination: members of families of orders, their search and their text.
#![tactic(auto)]

mod certificate;
mod family;
mod laws;
mod order;
mod read;
mod text;

pub use certificate::Certificate;
pub use family::Family;
pub use laws::more_rules_are_never_earlier;
pub use order::{is_greater, orients, search, search_from};
pub use read::read_cert;
pub use text::cert_text;
