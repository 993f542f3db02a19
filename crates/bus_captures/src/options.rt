//! Options of a block.
ghost use Rattle.std.{specs.Prelude.{◌≡◌, ◌<◌, ◌+◌, ◌%◌, ◌==◌, ◌++◌, List, ℕ, None, Some, MatchOption, option_map, if◌then◌else◌}, specs.Option.{option_or}};
ghost use Rattle.bus_captures.{specs.Options.{IsOption, HasNoOption, option_bytes}, specs.OptionValues.{option_value, AreTold}};

use crate::format::{Order, split_short};

/// The options that are read: the name of an interface, the resolution of its times, and how far they are shifted.
const NAME: u16 = 2;

const RESOLUTION: u16 = 9;

const SHIFT: u16 = 14;

/// One option: its code, its value, and what fills it up to a multiple of four bytes.
#[derive(Clone, Copy, Debug)]
pub struct FileOption<'b> {
    pub code: u16,
    pub value: &'b [u8],
    pub fill: &'b [u8],
}

/// What the options of an interface tell.
#[derive(Clone, Copy, Debug)]
pub struct Told<'b> {
    pub name: Option<&'b [u8]>,
    pub resolution: Option<&'b [u8]>,
    pub shift: Option<&'b [u8]>,
}

/// What the options at the front of the bytes tell, each by the first one of its code.
pub fn told_by(order: Order, bytes: &[u8]) -> Told<'_>
    ensures { AreTold order bytes.now result }
{
    let mut told = Told {
        name: None,
        resolution: None,
        shift: None,
    };
    let mut left = bytes;
    loop {
        let Some((option, rest)) = split_option(order, left) else {
            return told;
        };
        told = Told {
            name: told.name.or(option.value_of(NAME)),
            resolution: told.resolution.or(option.value_of(RESOLUTION)),
            shift: told.shift.or(option.value_of(SHIFT)),
        };
        left = rest;
    }
}

impl<'b> FileOption<'b> {
    /// Its value, if it is of this code.
    fn value_of(&self, code: u16) -> Option<&'b [u8]>
        ensures { option_map (λ v. v.now) result ≡ (if self.now.code == code then Some self.now.value.now else None) }
    {
        if self.code == code {
            Some(self.value)
        } else {
            None
        }
    }
}

/// The option at the front of the bytes, and the bytes after it.
fn split_option(order: Order, bytes: &[u8]) -> Option<(FileOption<'_>, &[u8])>
    ensures { MatchOption result (HasNoOption order bytes.now)
        (λ r. IsOption (option_value r.0) × (bytes.now ≡ option_bytes order (option_value r.0) ++ r.1.now)) }
{
    let (code, left) = split_short(order, bytes)?;
    let (count, left) = split_short(order, left)?;
    let count = usize::from(count);
    let filling = filling(count);
    if code == 0 || left.len() < count + filling {
        return None;
    }
    let (value, left) = left.split_at(count);
    let (fill, rest) = left.split_at(filling);
    Some((FileOption { code, value, fill }, rest))
}

/// How many bytes fill so many up to a multiple of four.
fn filling(count: usize) -> usize
    ensures few { result < 4 }
    ensures filled { (count + result) % 4 ≡ 0 }
{
    (4 - count % 4) % 4
}
