//! Where the tokens of a JSON text begin, with lines and columns.
ghost use Rattle.std.specs.Prelude.{◌≡◌, ◌+◌, ◌<◌, ◌≤◌, true, false, IfOk};
ghost use Rattle.net_pointers.{specs.Positions.{is_line_feed, begins_character}, specs.Spots.{AreSpots}};

use crate::position::Position;
use crate::scan::{Mode, begins_token, mode_after};
use std::alloc::{AllocError, Global};

/// Where a token of a text begins.
#[derive(Clone, Copy, Debug, PartialEq, Eq)]
pub struct Spot {
    /// How many bytes stand before it.
    pub offset: usize,
    pub position: Position,
}

/// Where each token of a text begins, in their order.
pub fn token_spots(alloc: Global, text: &[u8]) -> Result<Vec<Spot>, AllocError>
    ensures { IfOk result (λ spots. AreSpots text.now spots.items) }
{
    let mut spots = Vec::new(alloc);
    let mut mode = Mode::Between;
    let mut position = Position { line: 1, column: 1 };
    for offset in 0..text.len() {
        let byte = text[offset];
        if begins_token(mode, byte) {
            spots.push(Spot { offset, position })?;
        }
        mode = mode_after(mode, byte);
        position = after_byte(position, byte);
    }
    Ok(spots)
}

/// Where the byte after one stands.
fn after_byte(position: Position, byte: u8) -> Position
    requires line { position.line + 1 < 18446744073709551616 }
    requires column { position.column + 1 < 18446744073709551616 }
    ensures feed { is_line_feed byte ≡ true → (result.line ≡ position.line + 1) × (result.column ≡ 1) }
    ensures begun { is_line_feed byte ≡ false → begins_character byte ≡ true → (result.line ≡ position.line) × (result.column ≡ position.column + 1) }
    ensures within { is_line_feed byte ≡ false → begins_character byte ≡ false → (result.line ≡ position.line) × (result.column ≡ position.column) }
    ensures least_line { result.line ≤ position.line + 1 }
    ensures least_column { result.column ≤ position.column + 1 }
{
    if byte == b'\n' {
        return Position {
            line: position.line + 1,
            column: 1,
        };
    }
    if byte < 128 || 192 <= byte {
        return Position {
            column: position.column + 1,
            ..position
        };
    }
    position
}
