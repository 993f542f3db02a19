//! Laws of captures.
ghost use Rattle.std.{specs.Prelude.{◌≡◌, List, All}, specs.List.{flat_map}};
ghost use Rattle.bus_captures.{specs.Files.{FileRecord, IsRecord, record_bytes}, specs.declared.format.Order.{Order}};

/// Two lists of records that are the same bytes are equal.
pub fn one_list_of_records()
    ensures { (order : Order) (xs ys : List FileRecord) → All IsRecord xs → All IsRecord ys
        → flat_map (record_bytes order) xs ≡ flat_map (record_bytes order) ys → xs ≡ ys }
{}
