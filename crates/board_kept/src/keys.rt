//! The keys of a board's tables.
ghost use Rattle.std.specs.Prelude.{◌≡◌, IsTrue};
ghost use Rattle.toml.specs.View.{view, table_view};
ghost use Rattle.board_values.specs.Said.{AreKeys, HasOnlyKeys};
ghost use Rattle.board_kept.specs.Keys.{IsBoardKey, IsBusKey, IsHeadKey, IsPartKey, IsNodeKey, IsHexKey, IsFileKey, IsKeyOf};

use toml::{Table, Value};

/// Which table of a board.
#[derive(Clone, Copy, Debug, PartialEq, Eq)]
pub enum Level {
    /// The board itself.
    Top,
    OfBus,
    OfNode,
    /// A record that is given in hex.
    OfHex,
    /// A record that is given by a file.
    OfFile,
}

/// Whether nothing stands in the table but at keys of the level.
pub fn has_only_keys(value: &Value, level: Level) -> bool
    ensures { IsTrue result → HasOnlyKeys (IsKeyOf level) (view value.now) }
{
    match value.as_table() {
        Some(table) => are_keys(table, level),
        None => false,
    }
}

fn are_keys(table: &Table, level: Level) -> bool
    ensures { IsTrue result → AreKeys (IsKeyOf level) (table_view table.now) }
{
    for (name, _) in table.iter() {
        if !is_key_of(level, name.as_str()) {
            return false;
        }
    }
    true
}

fn is_key_of(level: Level, key: &str) -> bool
    ensures { IsTrue result → IsKeyOf level key.now }
{
    match level {
        Level::Top => is_board_key(key),
        Level::OfBus => is_bus_key(key),
        Level::OfNode => is_node_key(key),
        Level::OfHex => is_hex_key(key),
        Level::OfFile => is_file_key(key),
    }
}

fn is_board_key(key: &str) -> bool
    ensures { IsTrue result → IsBoardKey key.now }
{
    key == "unit" || key == "bus" || key == "node"
}

fn is_bus_key(key: &str) -> bool
    ensures { IsTrue result → IsBusKey key.now }
{
    key == "name" || key == "binding" || key == "media" || key == "addresses"
}

fn is_node_key(key: &str) -> bool
    ensures { IsTrue result → IsNodeKey key.now }
{
    is_head_key(key) || is_part_key(key)
}

/// Whether the key says what a node is.
fn is_head_key(key: &str) -> bool
    ensures { IsTrue result → IsHeadKey key.now }
{
    key == "name" || key == "kind" || key == "eid" || key == "owner" || key == "pool"
}

/// Whether the key says what a node has.
fn is_part_key(key: &str) -> bool
    ensures { IsTrue result → IsPartKey key.now }
{
    key == "ports" || key == "reaches" || key == "rows" || key == "tid" || key == "record"
}

fn is_hex_key(key: &str) -> bool
    ensures { IsTrue result → IsHexKey key.now }
{
    key == "handle" || key == "next" || key == "hex"
}

fn is_file_key(key: &str) -> bool
    ensures { IsTrue result → IsFileKey key.now }
{
    key == "handle" || key == "next" || key == "file"
}
