//! Units of timestamps.
ghost use Rattle.std.specs.Prelude.{◌<◌};

/// How many units of a timestamp a second has.
#[derive(Clone, Copy, Debug)]
pub struct Units {
    pub in_second: u64,
    pub ghost some: { 0 < in_second },
}
