//! Messages, in one call and in chunks, and what is built on them.

pub mod any_variant;
pub mod chunks;
pub mod comes_back;
pub mod counted;
pub mod encrypted_file;
pub mod headline;
pub mod in_parts;
pub mod in_place;
pub mod named_variant;
pub mod one_call;
pub mod opening;
pub mod session_token;
pub mod stored_value;
