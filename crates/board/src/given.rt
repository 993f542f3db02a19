//! What the tables of a board give, or why they can't be read.
use crate::fault::BoardError;
use crate::places::{Place, position};
use net_pointers::{nearest_name, shown_key};
use std::alloc::{AllocError, Global};
use toml::{Table, Value};

/// A table of a board, with where it stands.
#[derive(Clone, Copy)]
pub struct Given<'v> {
    pub alloc: Global,
    pub text: &'v str,
    pub table: &'v Table,
    /// The list of tables that it stands in, and its index there; none at the top.
    pub within: Option<(&'static str, usize)>,
    /// The index of a record of the node.
    pub record: Option<usize>,
}

impl<'v> Given<'v> {
    /// What stands at a key.
    pub fn value(&self, key: &str) -> Option<&'v Value> {
        self.table.get(key)
    }

    /// That what stands at a key, or at an index of the list there, can't be.
    pub fn fault(&self, key: &str, item: Option<usize>, wanted: &str) -> BoardError {
        self.fault_told(key, item, self.reason(key, item, wanted))
    }

    /// The same where no such name is known, with the nearest of those that are.
    pub fn fault_near(
        &self,
        key: &str,
        item: Option<usize>,
        wanted: &str,
        name: &str,
        known: &[&str],
    ) -> BoardError {
        self.fault_told(key, item, self.near_reason(key, item, wanted, name, known))
    }

    /// That this is why what stands at a key, or at an index of the list there, can't be.
    pub fn fault_told(
        &self,
        key: &str,
        item: Option<usize>,
        reason: Result<String, AllocError>,
    ) -> BoardError {
        match reason {
            Ok(reason) => self.fault_of(key, item, reason),
            // no memory: the text of the reason could not grow.
            Err(_) => BoardError::OutOfMemory,
        }
    }

    fn near_reason(
        &self,
        key: &str,
        item: Option<usize>,
        wanted: &str,
        name: &str,
        known: &[&str],
    ) -> Result<String, AllocError> {
        let near = nearest_of(self.alloc, name, known)?;
        let reason = self.reason(key, item, wanted)?;
        match near {
            Some(near) => format!(in self.alloc; "{reason}, as \"{near}\""),
            None => Ok(reason),
        }
    }

    fn fault_of(&self, key: &str, item: Option<usize>, reason: String) -> BoardError {
        let place = Place {
            table: self.within,
            record: self.record,
            key,
            item,
        };
        let (line, column) = position(self.text, place);
        BoardError::Unread {
            line,
            column,
            reason,
        }
    }

    /// What stands at a key, and what may.
    fn reason(&self, key: &str, item: Option<usize>, wanted: &str) -> Result<String, AllocError> {
        let found = found_text(self.alloc, found_at(self.value(key), item))?;
        let key = shown_key(self.alloc, key)?;
        format!(in self.alloc; "{found} stands at \"{key}\"; {wanted} may stand there")
    }

    /// The text at a key, if anything stands there.
    pub fn text(&self, key: &str, wanted: &str) -> Result<Option<&'v str>, BoardError> {
        match self.value(key) {
            None => Ok(None),
            Some(Value::String(text)) => Ok(Some(text.as_str())),
            Some(_) => Err(self.fault(key, None, wanted)),
        }
    }

    /// The text at a key, which must stand there.
    pub fn needed_text(&self, key: &str, wanted: &str) -> Result<&'v str, BoardError> {
        match self.text(key, wanted)? {
            Some(text) => Ok(text),
            None => Err(self.fault(key, None, wanted)),
        }
    }

    /// The number at a key, if anything stands there, from the least to the most.
    pub fn number(
        &self,
        key: &str,
        least: i64,
        most: i64,
        wanted: &str,
    ) -> Result<Option<i64>, BoardError> {
        match self.value(key) {
            None => Ok(None),
            Some(Value::Integer(number)) if least <= *number && *number <= most => {
                Ok(Some(*number))
            }
            Some(_) => Err(self.fault(key, None, wanted)),
        }
    }

    /// The byte at a key, if anything stands there, from the least to the most.
    pub fn byte(
        &self,
        key: &str,
        least: i64,
        most: i64,
        wanted: &str,
    ) -> Result<Option<u8>, BoardError> {
        match self.number(key, least, most, wanted)? {
            Some(number) => Ok(u8::try_from(number).ok()),
            None => Ok(None),
        }
    }

    /// The number of 32 bits at a key, if anything stands there.
    pub fn word(&self, key: &str, wanted: &str) -> Result<Option<u32>, BoardError> {
        match self.number(key, 0, 4_294_967_295, wanted)? {
            Some(number) => Ok(u32::try_from(number).ok()),
            None => Ok(None),
        }
    }

    /// The list at a key; none where nothing stands there.
    pub fn list(&self, key: &str, most: usize, wanted: &str) -> Result<&'v [Value], BoardError> {
        match self.value(key) {
            None => Ok(&[]),
            Some(Value::Array(values)) if values.len() <= most => Ok(values.as_slice()),
            Some(_) => Err(self.fault(key, None, wanted)),
        }
    }

    /// That each key of the table is one of these.
    pub fn check_keys(&self, known: &[&'static str], wanted: &str) -> Result<(), BoardError> {
        for (key, _) in self.table.iter() {
            if !is_among(known, key.as_str()) {
                return Err(self.fault_near(key.as_str(), None, wanted, key.as_str(), known));
            }
        }
        Ok(())
    }
}

/// The nearest of some names, where one is near.
pub fn nearest_of<'n>(
    alloc: Global,
    name: &str,
    known: &[&'n str],
) -> Result<Option<&'n str>, AllocError> {
    match nearest_name(alloc, name, known)? {
        Some(index) => Ok(known.get(index).copied()),
        None => Ok(None),
    }
}

/// Whether a key is one of these.
pub fn is_among(known: &[&'static str], key: &str) -> bool {
    for name in known {
        if *name == key {
            return true;
        }
    }
    false
}

/// A value, or an item of it where it is a list.
fn found_at(value: Option<&Value>, item: Option<usize>) -> Option<&Value> {
    match (value, item) {
        (Some(value), Some(index)) => value.get(index),
        (value, _) => value,
    }
}

/// What stands somewhere, in words.
fn found_text(alloc: Global, value: Option<&Value>) -> Result<String, AllocError> {
    let words = match value {
        None => "nothing",
        Some(Value::String(text)) => {
            let text = shown_key(alloc, text.as_str())?;
            return format!(in alloc; "\"{text}\"");
        }
        Some(Value::Integer(number)) => {
            let number = *number;
            return format!(in alloc; "{number}");
        }
        Some(Value::Table(_)) => "a table",
        Some(Value::Array(_)) => "a list",
        Some(Value::Boolean(_)) => "true or false",
        Some(Value::Float(_)) => "a number with a fraction",
        Some(Value::Datetime(_)) => "a date",
    };
    words.to_string(alloc)
}
