//! The causes of each rule's faults.

pub mod eids;
pub mod locators;
pub mod names;
pub mod owners;
pub mod pools;
pub mod records;
pub mod rows;
pub mod ways;
