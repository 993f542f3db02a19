//! Each file goes through what one crate, or a part of it, makes public. What commands show of it the rows in `tests/`
//! tell: `show.rows`, `records.rows`, `runs.rows`, `walks.rows`, `units.rows` and `answers.rows`.
mod assembly;
mod codes;
mod control;
mod cutting;
mod damage;
mod decisions;
mod messages;
mod packets;
mod pieces;
mod pldm;
mod readers;
mod refused_walks;
mod repositories;
mod surface;
mod tables;
mod walks;
