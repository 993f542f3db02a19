//! The state sets of a state sensor.
ghost use Rattle.std.specs.Prelude.{◌≡◌, ◌∷◌, [], length, IfOk, IfErr, IfSome, IfNone, None, slice_index, ◌+◌, ◌<◌, ◌≤◌};
ghost use Rattle.pdr_record.{specs.Fields.{bytes_of, followed, Fit}, specs.Layouts.{state_sets_fields}, specs.ListsAt.{state_sets_of, after_state_set, after_state_sets}, specs.StateSetValues.{bytes_after, state_set_value}};

use crate::reading::FieldReader;
use crate::record_error::RecordError;

/// A state set of a composite sensor (DSP0248, State Sensor PDR), and the bits of its states that the sensor can
/// report, state 0 in bit 0 of the first byte: three bytes and at most 255 of bits. The bits are borrowed.
#[derive(Clone, Copy, Debug, PartialEq, Eq)]
pub struct StateSet<'a> {
    /// Two bytes: the set of states, as a number of DSP0249's table.
    pub state_set_id: u16,
    /// One byte for how many follow, and as many bytes, a bit for each state.
    pub possible_states: &'a [u8],
}

/// State sets that stand one after the other, at most 255: each an identifier of two bytes, its lowest byte first, a
/// size of one byte, and so many bytes (DSP0248, State Sensor PDR). The bytes are borrowed.
#[derive(Clone, Copy, Debug, PartialEq, Eq)]
pub struct StateSets<'a> {
    count: u8,
    bytes: &'a [u8],
    ghost whole: { bytes_of (state_sets_fields (state_sets_of count bytes.now)) ≡ bytes.now },
}

impl<'a> StateSets<'a> {
    ghost use Rattle.pdr_record.specs.Lists.{state_sets_value};

    pub(crate) fn take(
        fields: &mut FieldReader<'a>,
        count: u8,
    ) -> Result<StateSets<'a>, RecordError>
        ensures field { IfOk result (λ ss. fields.old.rest.now ≡ followed (state_sets_fields (state_sets_value ss)) fields.new.rest.now) }
        ensures count { IfOk result (λ ss. length (state_sets_value ss) ≡ count) }
        ensures fits { IfOk result (λ ss. Fit (state_sets_fields (state_sets_value ss))) }
        ensures refused { IfErr result (λ e. (e ≡ RecordError.Ends) × (after_state_sets count fields.old.rest.now ≡ None)) }
    {
        let Some((state_sets, rest)) = StateSets::at_front(count, fields.rest) else {
            return Err(RecordError::Ends);
        };
        fields.rest = rest;
        Ok(state_sets)
    }

    /// `count` state sets at the front of the bytes, and the bytes behind them.
    fn at_front(count: u8, bytes: &'a [u8]) -> Option<(StateSets<'a>, &'a [u8])>
        ensures field { IfSome result (λ parts. bytes.now ≡ followed (state_sets_fields (state_sets_value parts.0)) parts.1.now) }
        ensures count { IfSome result (λ parts. length (state_sets_value parts.0) ≡ count) }
        ensures fits { IfSome result (λ parts. Fit (state_sets_fields (state_sets_value parts.0))) }
        ensures none { IfNone result (after_state_sets count bytes.now ≡ None) }
    {
        let rest = rest_after(count, bytes)?;
        let (own, rest) = bytes.split_at(bytes.len() - rest.len());
        Some((StateSets { count, bytes: own }, rest))
    }

    /// How many there are.
    pub fn count(&self) -> u8
        ensures { result ≡ length (state_sets_value self.now) }
    {
        self.count
    }

    /// The bytes that spell them.
    pub fn bytes(&self) -> &'a [u8]
        ensures { result.now ≡ bytes_of (state_sets_fields (state_sets_value self.now)) }
    {
        self.bytes
    }

    /// The first state set, and those after it.
    fn split_first(self) -> Option<(StateSet<'a>, StateSets<'a>)>
        ensures first { IfSome result (λ parts. state_sets_value self.entry ≡ state_set_value parts.0 ∷ state_sets_value parts.1) }
        ensures none { IfNone result (state_sets_value self.entry ≡ []) }
    {
        let count = self.count.checked_sub(1)?;
        let mut fields = FieldReader { rest: self.bytes };
        let state_set_id = fields.u16();
        let size = usize::from(fields.u8());
        let possible_states = fields.bytes(size);
        let bytes = fields.rest;
        Some((
            StateSet {
                state_set_id,
                possible_states,
            },
            StateSets { count, bytes },
        ))
    }
}

impl<'a> StateSets<'a> {
    ghost use Rattle.pdr_record.{specs.Lists.{state_sets_value}, specs.ListsLeft.{state_sets_left}};

    /// Each of them, in order.
    pub fn iter(&self) -> StateSetsIter<'a>
        ensures { state_sets_left result ≡ state_sets_value self.now }
    {
        StateSetsIter { left: *self }
    }
}

/// What is left of a list.
#[derive(Clone, Debug, Drop)]
pub struct StateSetsIter<'a> {
    left: StateSets<'a>,
}

impl<'a> Iterator for StateSetsIter<'a> {
    ghost use Rattle.std.specs.Iterator.{YieldsFirstBy, item_count};
    ghost use Rattle.pdr_record.specs.ListsLeft.{state_sets_left};

    type Item = StateSet<'a>;

    ghost next_gives = { YieldsFirstBy state_set_value state_sets_left };

    ghost remaining = { item_count state_sets_left };

    fn next(&mut self) -> Option<StateSet<'a>> {
        let (first, left) = self.left.split_first()?;
        self.left = left;
        Some(first)
    }
}

/// What follows `count` state sets.
fn rest_after(count: u8, bytes: &[u8]) -> Option<&[u8]>
    ensures { bytes_after result ≡ after_state_sets count bytes.now }
{
    let mut rest = bytes;
    for _ in 0..count {
        rest = rest_after_one(rest)?;
    }
    Some(rest)
}

fn rest_after_one(bytes: &[u8]) -> Option<&[u8]>
    ensures enough { IfSome result (λ rest. 3 + slice_index bytes.now 2 ≤ length bytes.now) }
    ensures rest { IfSome result (λ rest. rest.now ≡ after_state_set bytes.now) }
    ensures none { IfNone result (length bytes.now < 3 + slice_index bytes.now 2) }
{
    let [_, _, size, states @ ..] = bytes else {
        return None;
    };
    let size = usize::from(*size);
    if states.len() < size {
        return None;
    }
    Some(&states[size..])
}
