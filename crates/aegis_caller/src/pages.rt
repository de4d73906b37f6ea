//! Random-access files, and storages under them.

pub mod both_or_none;
pub mod error_causes;
pub mod kept_commitment;
pub mod kept_in_memory;
pub mod kept_on_disks;
pub mod page_counter;
pub mod page_table;
pub mod reopened_file;
pub mod replaced_value;
pub mod single_pages;
pub mod steps_by_hand;
