//! Where in a JSON text its tokens begin.
ghost use Rattle.std.specs.Prelude.{◌≡◌, ◌≢◌, ◌∷◌, List, drop, IsSomeAnd};
ghost use Rattle.json.{specs.Lex.{tokens}, specs.Token.{Token}};
ghost use Rattle.net_pointers.{specs.Offsets.{is_mark, AreTokensFrom}, specs.Scans.{begins_token, mode_after, lexed, is_bracket}};

/// Within what a byte of a JSON text stands.
#[derive(Clone, Copy)]
pub enum Mode {
    Between,
    InWord,
    InString,
    InEscape,
}

/// Where the token begins that so many others come before. `None` where there are not so many.
pub fn token_offset(text: &[u8], count: usize) -> Option<usize>
    ensures { (u : Token) (us : List Token) → drop count (tokens text.now) ≡ u ∷ us → u ≢ Token.bad → IsSomeAnd result (λ offset. AreTokensFrom text.now offset (u ∷ us)) }
{
    let mut mode = Mode::Between;
    let mut left = count;
    for offset in 0..text.len() {
        let byte = text[offset];
        if begins_token(mode, byte) {
            if left == 0 {
                return Some(offset);
            }
            left -= 1;
        }
        mode = mode_after(mode, byte);
    }
    None
}

/// Whether a token begins with the byte.
pub fn begins_token(mode: Mode, byte: u8) -> bool
    ensures { result ≡ begins_token (lexed mode) byte }
{
    match mode {
        Mode::Between => !is_mark(byte),
        Mode::InWord => is_bracket(byte),
        Mode::InString | Mode::InEscape => false,
    }
}

/// Within what the byte after this one stands.
pub fn mode_after(mode: Mode, byte: u8) -> Mode
    ensures { lexed result ≡ mode_after (lexed mode) byte }
{
    match mode {
        Mode::InEscape => Mode::InString,
        Mode::InString => match byte {
            b'"' => Mode::Between,
            b'\\' => Mode::InEscape,
            _ => Mode::InString,
        },
        Mode::Between if byte == b'"' => Mode::InString,
        Mode::Between | Mode::InWord if is_mark(byte) || is_bracket(byte) => Mode::Between,
        Mode::Between | Mode::InWord => Mode::InWord,
    }
}

/// White space, a comma or a colon.
fn is_mark(byte: u8) -> bool
    ensures { result ≡ is_mark byte }
{
    matches!(byte, b' ' | b'\t' | b'\n' | b'\r' | b',' | b':')
}

fn is_bracket(byte: u8) -> bool
    ensures { result ≡ is_bracket byte }
{
    matches!(byte, b'[' | b']' | b'{' | b'}')
}
