//! Laws of the words in scripts and sources. The functions do nothing: their contracts are the laws.
ghost use Rattle.std.{specs.Prelude.{ℕ, List, IsTrue}, specs.List.{list_all}};
ghost use Rattle.plan_values.{specs.NameText.{is_name_byte}, specs.declared.plan.Plan.{Plan}};
ghost use Rattle.net_tables.specs.Names.{bus_name, node_name};
ghost use Rattle.plan_exports.{specs.Devices.{AreDevices, device_at}, specs.declared.links.Link.{Link}};

/// What comes of names into a script or a source are ASCII letters, digits, `-`, `.` and `_` alone: no line ends there,
/// and no shell and no compiler reads it otherwise than as a word or a part of a comment.
pub fn words_are_plain()
    ensures nodes { (plan : Plan) (n : ℕ) → IsTrue (list_all is_name_byte (node_name plan n)) }
    ensures buses { (plan : Plan) (bus : ℕ) → IsTrue (list_all is_name_byte (bus_name plan bus)) }
    ensures devices { (plan : Plan) (links : List Link) (devices : List (List ℕ)) (bus : ℕ) → AreDevices plan links devices
        → IsTrue (list_all is_name_byte (device_at devices bus)) }
{}
