//! Tests over the public calls of `net_plan`, `net_check` and `net_sim`: of what no command prints, and of growths of
//! memory that are refused. Which texts are read, what the rules find and what comes of lists of events the rows in
//! `tests/` tell of the program: `explain.rows`, `rules.rows`, `runs.rows` and `walks.rows` first.
mod asking_again;
mod assigning;
mod beyond;
mod certificates;
mod events;
mod faults;
mod keys;
mod lists;
mod networks;
mod planned;
mod plans;
mod playing;
mod ranges;
mod refused_checks;
mod refused_runs;
mod refused_texts;
mod refused_walks;
mod streams;
mod surface;
mod termini;
mod two_kinds;
