//! Why rows make no routing table.

use std::alloc::AllocError;
use std::error::Error;
use std::fmt;

/// Why rows make no routing table. The first row with a fault is told, by its index, and of its faults the first of
/// these.
#[derive(Clone, Copy, Debug, PartialEq, Eq)]
pub enum TableFault {
    /// B01: the row covers no endpoint ID.
    Empty { row: usize },
    /// B02: the row reaches outside the endpoint IDs that can be held, 8 to 254.
    Outside { row: usize },
    /// B03: the row shares an endpoint ID with an earlier row, of such rows the first.
    Overlap { row: usize, earlier: usize },
    /// The rows are lawful, and there is no memory for their table.
    Memory,
}

impl From<AllocError> for TableFault {
    ghost use Rattle.std.specs.Prelude.{◌≡◌};
    ghost use Rattle.mctp_routing.specs.declared.table_fault.TableFault.TheVariants.{Memory};

    ghost from_gives = { λ _ fault. fault ≡ Memory };

    fn from(_error: AllocError) -> Self {
        TableFault::Memory
    }
}

impl TableFault {
    ghost use Rattle.std.specs.Prelude.{◌≡◌, option_map};
    ghost use Rattle.mctp_routing.specs.RowFaults.{table_code};

    /// The code that users see, as `B01`; none where memory ran out.
    pub fn code(self) -> Option<&'static str>
        ensures { option_map (λ code. code.now) result ≡ table_code self }
    {
        match self {
            TableFault::Empty { .. } => Some("B01"),
            TableFault::Outside { .. } => Some("B02"),
            TableFault::Overlap { .. } => Some("B03"),
            TableFault::Memory => None,
        }
    }
}

impl fmt::Display for TableFault {
    fn fmt<W: fmt::Write>(&self, f: &mut fmt::Formatter<W>) -> fmt::Result {
        match self {
            TableFault::Empty { row } => write!(f, "B01: row {row} covers no endpoint ID"),
            TableFault::Outside { row } => write!(f, "B02: row {row} reaches outside 8 to 254"),
            TableFault::Overlap { row, earlier } => {
                write!(f, "B03: row {row} overlaps row {earlier}")
            }
            TableFault::Memory => f.write_str("no memory"),
        }
    }
}

impl Error for TableFault {}
