//! What a numeric sensor measures in.
ghost use Rattle.std.specs.Prelude.{◌≡◌, ◌≤◌, ◌+◌, length};
ghost use Rattle.pdr_record.{specs.Fields.{followed, Fit}, specs.Layouts.{units_fields}};

use crate::reading::FieldReader;

/// What a numeric sensor measures in: ten fields of one byte (DSP0248, Numeric Sensor PDR).
#[derive(Clone, Copy, Debug, PartialEq, Eq)]
pub struct Units {
    /// One byte: what is measured, as a number of the standard's table of units.
    pub base_unit: u8,
    /// One byte, in two's complement: the power of ten that the base unit is multiplied by.
    pub unit_modifier: u8,
    /// One byte: the time that the base unit is counted for, 0 where it is no rate.
    pub rate_unit: u8,
    /// One byte: which OEM Unit PDR names the base unit, where that is one of the maker's own.
    pub base_oem_unit_handle: u8,
    /// One byte: a second unit, by which the base unit is multiplied or divided; 0 where there is none.
    pub aux_unit: u8,
    /// One byte, in two's complement: the power of ten that the second unit is multiplied by.
    pub aux_unit_modifier: u8,
    /// One byte: the time that the second unit is counted for, 0 where it is no rate.
    pub aux_rate_unit: u8,
    /// One byte: 0 where the base unit is divided by the second unit, 1 where it is multiplied by it.
    pub rel: u8,
    /// One byte: which OEM Unit PDR names the second unit, where that is one of the maker's own.
    pub aux_oem_unit_handle: u8,
    /// One byte: 1 where the sensor is linear, else 0.
    pub is_linear: u8,
}

impl Units {
    ghost use Rattle.pdr_record.specs.Values.{units_value};

    pub(crate) fn take(fields: &mut FieldReader) -> Units
        requires { 10 ≤ length fields.old.rest.now }
        ensures field { fields.old.rest.now ≡ followed (units_fields (units_value result)) fields.new.rest.now }
        ensures fits { Fit (units_fields (units_value result)) }
        ensures left { length fields.old.rest.now ≡ 10 + length fields.new.rest.now }
    {
        Units {
            base_unit: fields.u8(),
            unit_modifier: fields.u8(),
            rate_unit: fields.u8(),
            base_oem_unit_handle: fields.u8(),
            aux_unit: fields.u8(),
            aux_unit_modifier: fields.u8(),
            aux_rate_unit: fields.u8(),
            rel: fields.u8(),
            aux_oem_unit_handle: fields.u8(),
            is_linear: fields.u8(),
        }
    }
}
