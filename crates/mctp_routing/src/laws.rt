//! A law of pieces. The function does nothing: its contract is the law.
ghost use Rattle.std.specs.Prelude.{◌≡◌, ℕ, List};
ghost use Rattle.mctp_routing.{specs.declared.row.TableRow.{TableRow}, specs.Rows.{IsTable}, specs.Pieces.{PieceValue, ArePieces}};

/// A table cuts an interval into one list of pieces only.
pub fn one_list_of_pieces()
    ensures { (rows : List TableRow) (first last : ℕ) (pieces others : List PieceValue) → IsTable rows
        → ArePieces rows first last pieces → ArePieces rows first last others → pieces ≡ others }
{}
