//! The HTML pages of plans: how a text stands in one, its front, the picture of a network, and tables of what it has.
#![tactic(auto)]

mod escaping;
mod markup;
mod page;
mod picture;
mod style;
mod tables;
mod termini;

pub use escaping::escaped;
pub use markup::{block, push_listed, push_section};
pub use net_tables::lookup::node_name;
pub use page::page_of;
pub use picture::picture_of;
pub use tables::{bus_table, node_table, pool_table, row_table};
pub use termini::terminus_list;
