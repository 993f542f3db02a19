//! The runs of networks, of one plan or of a move, with walkers and without: their definitions, and the laws of what is
//! lawful.
#![tactic(auto)]

mod laws;

pub use laws::{
    every_key_is_quiet_at_the_start, messages_can_be_sent, messages_come_as_sent, never_stuck,
    nodes_can_switch_between, requests_can_be_answered, runs_are_alike_before_any_switch,
    runs_below, runs_go_on, six_are_too_many, walked_messages_come_as_sent,
    walked_runs_are_alike_before_any_switch, walked_runs_go_on, walkers_take_one_list,
    walks_can_begin, walks_never_get_stuck, what_comes_is_told,
};
