//! Record streams, in one call and a record at a time.

pub mod associated_data;
pub mod in_place;
pub mod log;
pub mod protocol;
pub mod steps;
pub mod whole;
