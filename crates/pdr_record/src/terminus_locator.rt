//! Terminus locators.
ghost use Rattle.std.specs.Prelude.{◌≡◌, ◌<◌, ◌≤◌, ◌+◌, length, slice_index, IfOk, IfErr};
ghost use Rattle.pdr_record.{specs.Fields.{followed, Fit}, specs.Layouts.{terminus_fields}, specs.Written.{fields_of}};

use crate::field::Field;
use crate::reading::FieldReader;
use crate::record_error::RecordError;

/// Where a terminus is found (DSP0248, Terminus Locator PDR, type 1): 8 bytes and the locator's value, at most 255. A
/// number's lowest byte comes first.
#[derive(Clone, Copy, Debug, PartialEq, Eq)]
pub struct TerminusLocator<'a> {
    /// Two bytes: the handle by which the records name the terminus.
    pub terminus_handle: u16,
    /// One byte: 1 where the record is valid, else 0.
    pub validity: u8,
    /// One byte: the terminus ID (DSP0240).
    pub tid: u8,
    /// Two bytes: the container of the terminus, 0 for the system as a whole.
    pub container_id: u16,
    /// One byte: 1 where the value is an MCTP endpoint ID.
    pub locator_type: u8,
    /// One byte for how many follow, and as many bytes: where the terminus is.
    pub locator_value: &'a [u8],
}

impl<'a> TerminusLocator<'a> {
    ghost use Rattle.pdr_record.specs.Values.{terminus_value};

    pub(crate) fn take(fields: &mut FieldReader<'a>) -> Result<TerminusLocator<'a>, RecordError>
        ensures field { IfOk result (λ t. fields.old.rest.now ≡ followed (terminus_fields (terminus_value t)) fields.new.rest.now) }
        ensures fits { IfOk result (λ t. Fit (terminus_fields (terminus_value t))) }
        ensures refused { IfErr result (λ e. (e ≡ RecordError.Ends) × (length fields.old.rest.now < 8 + slice_index fields.old.rest.now 7)) }
    {
        fields.want(8)?;
        let terminus_handle = fields.u16();
        let validity = fields.u8();
        let tid = fields.u8();
        let container_id = fields.u16();
        let locator_type = fields.u8();
        let size = usize::from(fields.u8());
        fields.want(size)?;
        Ok(TerminusLocator {
            terminus_handle,
            validity,
            tid,
            container_id,
            locator_type,
            locator_value: fields.bytes(size),
        })
    }

    pub(crate) fn fields(&self) -> [Field<'a>; 7]
        requires { length self.now.locator_value.now < 256 }
        ensures { fields_of result ≡ terminus_fields (terminus_value self.now) }
    {
        [
            Field::U16(self.terminus_handle),
            Field::U8(self.validity),
            Field::U8(self.tid),
            Field::U16(self.container_id),
            Field::U8(self.locator_type),
            Field::U8(self.locator_value.len() as u8),
            Field::Raw(self.locator_value),
        ]
    }
}
