//! The part of a routing table that one answer brings.
ghost use Rattle.std.specs.Prelude.{◌≡◌, ◌+◌, ◌≤◌, ◌++◌, length, vec_len, vec_capacity, MatchOption};
ghost use Rattle.mctp_control.{specs.EntriesValue.{entries_of}, specs.Headers.{header_value}};
ghost use Rattle.mctp_bridge.specs.Parts.{Tells, TellsNothing};

use mctp_control::{ControlAnswer, ControlHeader, Entries, Response, RouteEntry};
use mctp_transport::Wire;

/// A success answer of Get Routing Table Entries.
#[derive(Debug, Drop)]
pub(crate) struct TablePart {
    pub(crate) header: ControlHeader,
    /// The handle of the entries after these; 0xFF: there are none.
    pub(crate) next: u8,
    pub(crate) entries: Entries,
}

impl TablePart {
    /// The part that the bytes of an answer bring.
    pub(crate) fn read(answer: &[u8]) -> Option<Self>
        ensures { MatchOption result (TellsNothing answer.now)
            (λ part. Tells (header_value part.header) part.next (entries_of part.entries) answer.now) }
    {
        match Response::read(answer) {
            Ok(
                Response {
                    header,
                    answer: ControlAnswer::GetRoutingTableEntries { next, entries },
                },
            ) => Some(TablePart {
                header,
                next,
                entries,
            }),
            _ => None,
        }
    }
}

/// Adds the entries at the end of a list that has room for them.
pub(crate) fn append(list: &mut Vec<RouteEntry>, more: Entries)
    requires { vec_len list.old + length more.items.items ≤ vec_capacity list.old }
    ensures items { list.new.items ≡ list.old.items ++ more.items.items }
    ensures capacity { vec_capacity list.new ≡ vec_capacity list.old }
{
    for entry in more.items {
        list.push_reserved(entry);
    }
}
