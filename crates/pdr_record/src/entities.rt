//! Lists of entities.
ghost use Rattle.std.specs.Prelude.{◌≡◌, ◌<◌, ◌≤◌, ◌*◌, ◌∷◌, [], length, IfOk, IfErr, IfSome, IfNone};
ghost use Rattle.pdr_record.{specs.Fields.{bytes_of, followed, Fit}, specs.Layouts.{entities_fields}, specs.ListsAt.{entities_of}, specs.Values.{entity_value}};

use crate::entity::Entity;
use crate::reading::FieldReader;
use crate::record_error::RecordError;

/// Entities that stand one after the other, in six bytes each: at most 255 (DSP0248, Entity Association PDR). The bytes
/// are borrowed.
#[derive(Clone, Copy, Debug, PartialEq, Eq)]
pub struct Entities<'a> {
    count: u8,
    bytes: &'a [u8],
    ghost whole: { bytes_of (entities_fields (entities_of count bytes.now)) ≡ bytes.now },
}

impl<'a> Entities<'a> {
    ghost use Rattle.pdr_record.specs.Lists.{entities_value};

    pub(crate) fn take(fields: &mut FieldReader<'a>, count: u8) -> Result<Entities<'a>, RecordError>
        ensures field { IfOk result (λ es. fields.old.rest.now ≡ followed (entities_fields (entities_value es)) fields.new.rest.now) }
        ensures count { IfOk result (λ es. length (entities_value es) ≡ count) }
        ensures fits { IfOk result (λ es. Fit (entities_fields (entities_value es))) }
        ensures refused { IfErr result (λ e. (e ≡ RecordError.Ends) × (length fields.old.rest.now < 6 * count)) }
    {
        let size = 6 * usize::from(count);
        fields.want(size)?;
        Ok(Entities::of(count, fields.bytes(size)))
    }

    fn of(count: u8, bytes: &'a [u8]) -> Entities<'a>
        requires { length bytes.now ≡ 6 * count }
        ensures bytes { bytes.entry.now ≡ bytes_of (entities_fields (entities_value result)) }
        ensures count { length (entities_value result) ≡ count }
        ensures fits { Fit (entities_fields (entities_value result)) }
    {
        Entities { count, bytes }
    }

    /// How many there are.
    pub fn count(&self) -> u8
        ensures { result ≡ length (entities_value self.now) }
    {
        self.count
    }

    /// The bytes that spell them.
    pub fn bytes(&self) -> &'a [u8]
        ensures { result.now ≡ bytes_of (entities_fields (entities_value self.now)) }
    {
        self.bytes
    }

    /// The first entity, and those after it.
    fn split_first(self) -> Option<(Entity, Entities<'a>)>
        ensures first { IfSome result (λ parts. entities_value self.entry ≡ entity_value parts.0 ∷ entities_value parts.1) }
        ensures none { IfNone result (entities_value self.entry ≡ []) }
    {
        let count = self.count.checked_sub(1)?;
        let mut fields = FieldReader { rest: self.bytes };
        let first = Entity::take(&mut fields);
        let bytes = fields.rest;
        Some((first, Entities { count, bytes }))
    }
}

impl<'a> Entities<'a> {
    ghost use Rattle.pdr_record.{specs.Lists.{entities_value}, specs.ListsLeft.{entities_left}};

    /// Each of them, in order.
    pub fn iter(&self) -> EntitiesIter<'a>
        ensures { entities_left result ≡ entities_value self.now }
    {
        EntitiesIter { left: *self }
    }
}

/// What is left of a list.
#[derive(Clone, Debug, Drop)]
pub struct EntitiesIter<'a> {
    left: Entities<'a>,
}

impl<'a> Iterator for EntitiesIter<'a> {
    ghost use Rattle.std.specs.Iterator.{YieldsFirstBy, item_count};
    ghost use Rattle.pdr_record.specs.ListsLeft.{entities_left};

    type Item = Entity;

    ghost next_gives = { YieldsFirstBy entity_value entities_left };

    ghost remaining = { item_count entities_left };

    fn next(&mut self) -> Option<Entity> {
        let (first, left) = self.left.split_first()?;
        self.left = left;
        Some(first)
    }
}
