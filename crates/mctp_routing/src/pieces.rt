//! The pieces that a routing table makes of an interval of endpoint IDs.
ghost use Rattle.std.{specs.Prelude.{◌≡◌, ◌<◌, ◌≤◌, length}, specs.List.{AllWithin}};
ghost use Rattle.mctp_routing.{specs.Rows.{IsTable}, specs.Pieces.{piece_value}, specs.PiecesLeft.{piece_to, Reaches}};

use crate::row::{Hop, TableRow};
use mctp_transport::Eid;
use std::marker::Model;

/// A run of endpoint IDs that a table treats alike: those of a row, or those of a gap between rows.
#[derive(Clone, Copy, Debug, PartialEq, Eq)]
pub struct Piece {
    /// The first endpoint ID of the run.
    pub first: Eid,
    /// The last endpoint ID of the run, which it includes.
    pub last: Eid,
    /// The hop of the row that covers each of them, none where no row covers any.
    pub hop: Option<Hop>,
}

/// The pieces of an interval of endpoint IDs that have yet to come.
#[derive(Clone, Debug, Drop)]
pub struct Pieces<'a> {
    /// The rows that reach past the pieces that came, in the order of their first endpoint IDs.
    rows: &'a [TableRow],
    /// The first endpoint ID of the next piece.
    from: u16,
    /// The number after the interval's last; nothing is left once the next piece would begin there.
    end: u16,
}

impl<'a> Model for Pieces<'a> {
    ghost use Rattle.std.specs.Prelude.{List};
    ghost use Rattle.mctp_routing.{specs.Pieces.{PieceValue}, specs.PiecesLeft.{pieces_from, AreAhead}};

    ghost Value = { List PieceValue };

    ghost view = { λ s. pieces_from s.rows.now s.from s.end };

    ghost invariant = { λ s. AreAhead s.rows.now s.from s.end };
}

impl<'a> Pieces<'a> {
    ghost use Rattle.mctp_routing.specs.Pieces.{ArePieces};

    /// The pieces that a table's rows make of the interval.
    pub(crate) fn of(rows: &'a [TableRow], first: Eid, last: Eid) -> Pieces<'a>
        requires table { IsTable rows.now }
        requires ordered { first.value ≤ last.value }
        ensures { ArePieces rows.now first.value last.value result }
    {
        let passed = ended_before(rows, first);
        Pieces {
            rows: &rows[passed..],
            from: u16::from(first.value),
            end: u16::from(last.value) + 1,
        }
    }
}

impl<'a> Iterator for Pieces<'a> {
    ghost use Rattle.std.specs.Iterator.{YieldsFirstBy, item_count};

    type Item = Piece;

    ghost next_gives = { YieldsFirstBy piece_value (λ left. left) };

    ghost remaining = { item_count (λ left. left) };

    fn next(&mut self) -> Option<Piece> {
        if self.end <= self.from {
            return None;
        }
        let Some((row, later)) = self.rows.split_first() else {
            return Some(cut(&mut self.from, self.end, None));
        };
        let begin = u16::from(row.first.value);
        if self.from < begin {
            return Some(cut(&mut self.from, begin.min(self.end), None));
        }
        self.rows = later;
        Some(cut(&mut self.from, row.end().min(self.end), Some(row.hop)))
    }
}

/// How many rows end before the endpoint ID. They are found by halving.
fn ended_before(rows: &[TableRow], eid: Eid) -> usize
    requires { IsTable rows.now }
    ensures within { result ≤ length rows.now }
    ensures ended { AllWithin (λ row. ¬ Reaches eid.value row) rows.now 0 result }
    ensures reaching { AllWithin (Reaches eid.value) rows.now result (length rows.now) }
{
    let from = u16::from(eid.value);
    rows.partition_point(|row| row.end() <= from)
}

/// The piece from the endpoint ID up to the number before `stop`, where the next one begins then.
fn cut(from: &mut u16, stop: u16, hop: Option<Hop>) -> Piece
    requires filled { from.old < stop }
    requires within { stop ≤ 256 }
    ensures piece { piece_value result ≡ piece_to from.old stop hop }
    ensures moved { from.new ≡ stop }
{
    let first = Eid::new(*from as u8);
    let last = Eid::new((stop - 1) as u8);
    *from = stop;
    Piece { first, last, hop }
}
