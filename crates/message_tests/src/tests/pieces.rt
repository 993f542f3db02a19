//! Intervals cut by hand, and a loop over pieces.
ghost use Rattle.std.specs.Prelude.{ℕ, ◌<◌, ◌≤◌, IfNone, IfSome};
ghost use Rattle.mctp_routing.specs.Pieces.{IsCovered};

use mctp_routing::{Hop, RangeTable, TableRow};
use mctp_transport::Eid;
use std::alloc::Global;
use std::test::Fail;

const HOST: Hop = Hop { port: 0, next: 0 };

const NIC: Hop = Hop { port: 1, next: 2 };

const SSD: Hop = Hop { port: 2, next: 3 };

/// The first endpoint ID of a row, how many it covers, and its hop.
type Row = (u8, u8, Hop);

/// The table of these rows.
fn table_of(alloc: Global, rows: &[Row]) -> Result<RangeTable, Fail> {
    let mut list = Vec::new(alloc);
    for (first, size, hop) in rows {
        list.push(TableRow {
            first: Eid::new(*first),
            size: *size,
            hop: *hop,
        })?;
    }
    Ok(RangeTable::build(alloc, &list).ok().ok_or("no table")?)
}

/// Whether the interval is cut into pieces of these first and last endpoint IDs and hops, and no others.
fn is_cut_so(table: &RangeTable, first: u8, last: u8, wanted: &[(u8, u8, Option<Hop>)]) -> bool
    requires { first ≤ last }
{
    let mut pieces = table.pieces(Eid::new(first), Eid::new(last));
    for row in wanted {
        match pieces.next() {
            Some(piece) if (piece.first.value, piece.last.value, piece.hop) == *row => {}
            _ => return false,
        }
    }
    pieces.next().is_none() && pieces.next().is_none()
}

/// The least endpoint ID of the interval that no row covers.
fn first_uncovered(table: &RangeTable, first: Eid, last: Eid) -> Option<Eid>
    requires { first.value ≤ last.value }
    ensures bare { IfSome result (λ eid. ¬ IsCovered table.now eid.value) }
    ensures inside { IfSome result (λ eid. (first.value ≤ eid.value) × (eid.value ≤ last.value)) }
    ensures least { IfSome result (λ eid. (e : ℕ) → first.value ≤ e → e < eid.value → IsCovered table.now e) }
    ensures none { IfNone result ((e : ℕ) → first.value ≤ e → e ≤ last.value → IsCovered table.now e) }
{
    for piece in table.pieces(first, last) {
        if piece.hop.is_none() {
            return Some(piece.first);
        }
    }
    None
}

/// Rows, the first and the last endpoint ID of an interval, and its pieces.
type Cut = (&'static [Row], u8, u8, &'static [(u8, u8, Option<Hop>)]);

const APART: [Row; 3] = [(17, 1, NIC), (8, 1, HOST), (18, 1, SSD)];

const SIDE_BY_SIDE: [Row; 2] = [(8, 9, HOST), (17, 40, HOST)];

const WIDE: [Row; 2] = [(16, 8, NIC), (40, 8, SSD)];

const CUTS: [Cut; 6] = [
    (
        &APART,
        8,
        23,
        &[
            (8, 8, Some(HOST)),
            (9, 16, None),
            (17, 17, Some(NIC)),
            (18, 18, Some(SSD)),
            (19, 23, None),
        ],
    ),
    // rows with one hop stay two pieces
    (
        &SIDE_BY_SIDE,
        0,
        255,
        &[
            (0, 7, None),
            (8, 16, Some(HOST)),
            (17, 56, Some(HOST)),
            (57, 255, None),
        ],
    ),
    (&WIDE, 18, 20, &[(18, 20, Some(NIC))]),
    (&WIDE, 24, 39, &[(24, 39, None)]),
    (&WIDE, 255, 255, &[(255, 255, None)]),
    (&[], 0, 255, &[(0, 255, None)]),
];

/// The first and the last endpoint ID of the first interval that is cut otherwise.
fn first_other(alloc: Global, cuts: &[Cut]) -> Result<Option<(u8, u8)>, Fail> {
    for (rows, first, last, wanted) in cuts {
        let table = table_of(alloc, *rows)?;
        if *last < *first || !is_cut_so(&table, *first, *last, *wanted) {
            return Ok(Some((*first, *last)));
        }
    }
    Ok(None)
}

#[test]
fn intervals_are_cut_into_pieces(rt: HostRuntime) -> Result<(), Fail> {
    assert_eq!(rt; first_other(rt.alloc(), &CUTS)?, None);
    Ok(())
}

#[test]
fn a_loop_looks_at_every_number(rt: HostRuntime) -> Result<(), Fail> {
    let table = table_of(rt.alloc(), &[(8, 8, NIC), (16, 8, SSD)])?;
    for (first, last, wanted) in [(10, 23, None), (10, 40, Some(24)), (5, 40, Some(5))] {
        assert!(rt; first <= last);
        let uncovered = first_uncovered(&table, Eid::new(first), Eid::new(last));
        assert_eq!(rt; uncovered.map(|eid| eid.value), wanted, "{first} {last}");
    }
    Ok(())
}
