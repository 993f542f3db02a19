//! Platform descriptor records of PLDM (DSP0248): their fields and their bytes. Sections are those of DSP0248 1.2.
#![tactic(auto)]

mod body;
mod entities;
mod entity;
mod entity_association;
mod field;
mod laws;
mod numeric_sensor;
mod precision;
mod range_field_format;
mod ranges;
mod reading;
mod record;
mod record_error;
mod sensor;
mod sensor_data_size;
mod state_sensor;
mod state_sets;
mod terminus_locator;
mod timing;
mod units;

pub use body::{Body, NUMERIC_SENSOR, TERMINUS_LOCATOR};
pub use entities::{Entities, EntitiesIter};
pub use entity::Entity;
pub use entity_association::EntityAssociation;
pub use laws::one_spelling;
pub use numeric_sensor::NumericSensor;
pub use precision::Precision;
pub use range_field_format::RangeFieldFormat;
pub use ranges::Ranges;
pub use record::{HEADER_LENGTH, Record, has_type, other_handle};
pub use record_error::RecordError;
pub use sensor::Sensor;
pub use sensor_data_size::SensorDataSize;
pub use state_sensor::StateSensor;
pub use state_sets::{StateSet, StateSets, StateSetsIter};
pub use terminus_locator::TerminusLocator;
pub use timing::Timing;
pub use units::Units;
