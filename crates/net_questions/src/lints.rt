//! The tests of what looks wrong.
pub mod addresses;
mod bodies;
pub mod buses;
pub mod entities;
pub mod handles;
pub mod locators;
pub mod ports;
pub mod record_index;
pub mod rows;
pub mod sensors;
pub mod termini;
pub mod thresholds;
pub mod ways;
