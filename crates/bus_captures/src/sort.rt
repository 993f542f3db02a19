//! What the bytes of a text capture may be, and where they stand.
ghost use Rattle.std.specs.Prelude.{◌≡◌, ◌≤◌, length, drop};
ghost use Rattle.bus_captures.specs.Sorts.{is_of, before, behind, is_decimal, is_space};

/// What a byte of a line may be.
#[derive(Clone, Copy, Debug, PartialEq, Eq)]
pub enum Sort {
    LineEnd,
    Hash,
    Colon,
    Space,
    NoSpace,
    NoDecimal,
}

impl Sort {
    /// Whether the byte is of the sort.
    pub fn has(self, byte: u8) -> bool
        ensures { result ≡ is_of self byte }
    {
        match self {
            Sort::LineEnd => byte == b'\n',
            Sort::Hash => byte == b'#',
            Sort::Colon => byte == b':',
            Sort::Space => is_space(byte),
            Sort::NoSpace => !is_space(byte),
            Sort::NoDecimal => !is_decimal(byte),
        }
    }

    /// How many bytes stand before the first one of the sort: all of them where there is none.
    pub fn before(self, text: &[u8]) -> usize
        ensures place { result ≡ before self text.now }
        ensures within { result ≤ length text.now }
    {
        for (i, byte) in text.iter().enumerate() {
            if self.has(*byte) {
                return i;
            }
        }
        text.len()
    }

    /// How many bytes stand behind the last one of the sort: all of them where there is none.
    pub fn behind(self, text: &[u8]) -> usize
        ensures place { result ≡ behind self text.now }
        ensures within { result ≤ length text.now }
    {
        let mut at = text.len();
        while at > 0 && !self.has(text[at - 1]) {
            at -= 1;
        }
        text.len() - at
    }
}

/// A blank, a tab, or the carriage return at the end of a line.
pub fn is_space(byte: u8) -> bool
    ensures { result ≡ is_space byte }
{
    byte == b' ' || byte == b'\t' || byte == b'\r'
}

fn is_decimal(byte: u8) -> bool
    ensures { result ≡ is_decimal byte }
{
    b'0' <= byte && byte <= b'9'
}

/// The text without so many bytes at its front.
pub fn skip(text: &[u8], count: usize) -> &[u8]
    requires { count ≤ length text.now }
    ensures { result.now ≡ drop count text.now }
{
    text.split_at(count).1
}
