//! Levels straight from a text.
ghost use Rattle.std.specs.Prelude.{IfSome, ⊤};
ghost use Rattle.json.specs.Json.{Members, no_members, object};
ghost use Rattle.plan_values.specs.CertificateValues.{level_value};
ghost use Rattle.net_plan.{specs.Gathered.{AreParts, IsPlain}, specs.LevelParts.{level_slots, IsLevelBy}, specs.NameIndexes.{noted}, specs.Trees.{data_of}};

use crate::gather::{Gather, NextItem, read_object, set_once};
use crate::name_index::NameIndex;
use crate::next_value::{next_name, next_number_within};
use plain_json::PlainReader;
use plan_values::NodeLevel;
use std::alloc::Global;

/// What is known so far of a level.
#[derive(Clone, Copy)]
pub struct LevelParts<'t> {
    level: Option<u8>,
    node: Option<&'t str>,
}

impl<'t> LevelParts<'t> {
    fn none() -> LevelParts<'t>
        ensures { AreParts (level_slots result) no_members }
    {
        LevelParts {
            level: None,
            node: None,
        }
    }

    fn level(&self, nodes: &NameIndex) -> Option<NodeLevel>
        ensures { IfSome result (λ l. (ms : Members) → AreParts (level_slots self.now) ms → IsLevelBy (noted nodes.now) (data_of (object ms)) (level_value l) × IsPlain (object ms)) }
    {
        let level = self.level?;
        let node = self.node?;
        let index = nodes.index_of(node)?;
        if level == 0 || level > 63 {
            return None;
        }
        Some(NodeLevel { level, node: index })
    }
}

impl<'t> Gather<'t> for LevelParts<'t> {
    ghost Holds = { λ p. AreParts (level_slots p) };

    ghost Given = { ⊤ };

    ghost given = { λ _. tt };

    fn take(
        &mut self,
        _alloc: Global,
        key: &'t str,
        reader: &mut PlainReader<'t>,
        _depth: usize,
    ) -> Option<()> {
        match key {
            "level" => set_once(&mut self.level, next_number_within(reader, 1, 63)? as u8),
            "node" => set_once(&mut self.node, next_name(reader)?),
            _ => None,
        }
    }
}

/// Reads the levels of nodes that this index finds.
#[derive(Clone, Copy)]
pub struct NextLevel<'p, 'n> {
    pub nodes: &'p NameIndex<'n>,
}

impl<'p, 'n, 't> NextItem<'t> for NextLevel<'p, 'n> {
    type Item = NodeLevel;

    ghost IsOf = { λ s j l. IsLevelBy (noted s.nodes.now) (data_of j) (level_value l) × IsPlain j };

    fn next_item(
        &self,
        alloc: Global,
        reader: &mut PlainReader<'t>,
        depth: usize,
    ) -> Option<NodeLevel> {
        let mut parts = LevelParts::none();
        read_object(alloc, &mut parts, reader, depth)?;
        parts.level(self.nodes)
    }
}
