//! Numbers of flights, as the words of a command give them.

/// Numbers of flights: digits with commas between the numbers.
#[derive(Clone, Copy)]
pub struct Flights<'a> {
    /// Nothing where there are none.
    list: Option<&'a str>,
}

impl<'a> Flights<'a> {
    /// No flights.
    pub const NONE: Flights<'static> = Flights { list: None };

    /// The numbers of a word, if it is a list of numbers.
    pub fn of(word: &'a str) -> Option<Flights<'a>> {
        if word.split(',').all(|part| number_of(part).is_some()) {
            Some(Flights { list: Some(word) })
        } else {
            None
        }
    }

    /// Whether the number is one of them.
    pub fn has(self, number: u32) -> bool {
        match self.list {
            Some(list) => list.split(',').any(|part| number_of(part) == Some(number)),
            None => false,
        }
    }
}

/// The number that a word is in ASCII digits.
fn number_of(word: &str) -> Option<u32> {
    if !word.bytes().all(|digit| digit.is_ascii_digit()) {
        return None;
    }
    word.parse().ok()
}
