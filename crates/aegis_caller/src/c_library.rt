//! The C library: several of its functions together. They are called at the types of the variants, with the contracts
//! that its exports have at the variants' numbers.

pub mod journals;
pub mod messages;
pub mod pages;
pub mod records;
pub mod states;
