//! The names of buses and nodes.
ghost use Rattle.std.{specs.Prelude.{◌≡◌, string_bytes, IsTrue}, specs.List.{list_all}};
ghost use Rattle.plan_values.specs.NameText.{is_name, is_name_byte, has_name_length};

/// The name of a bus or a node: 1 to 32 ASCII letters, digits, `-`, `_` or `.`.
#[derive(Debug, PartialEq, Eq, Drop)]
pub struct Name {
    pub text: String,
    pub ghost spelled: { IsTrue (is_name (string_bytes text)) },
}

impl Name {
    ghost use Rattle.std.specs.Prelude.{◌≡◌, Some, None, option_map, if◌then◌else◌, string_bytes};
    ghost use Rattle.plan_values.{specs.NameText.{is_name}, specs.NodeValues.{name_bytes}};

    /// The name that a text is. `None` where it is none.
    pub fn of(text: String) -> Option<Name>
        ensures { option_map name_bytes result ≡ (if is_name (string_bytes text) then Some (string_bytes text) else None) }
    {
        if is_name(text.as_str()) {
            Some(Name { text })
        } else {
            None
        }
    }
}

/// Whether a text is a well-formed name.
pub fn is_name(text: &str) -> bool
    ensures { result ≡ is_name text.now }
{
    has_name_length(text) && is_spelled(text.as_bytes())
}

fn has_name_length(text: &str) -> bool
    ensures { result ≡ has_name_length text.now }
{
    1 <= text.len() && text.len() <= 32
}

fn is_spelled(bytes: &[u8]) -> bool
    ensures { result ≡ list_all is_name_byte bytes.now }
{
    bytes.iter().all(|byte| is_name_byte(*byte))
}

fn is_name_byte(byte: u8) -> bool
    ensures { result ≡ is_name_byte byte }
{
    byte.is_ascii_alphanumeric() || byte == b'-' || byte == b'.' || byte == b'_'
}
