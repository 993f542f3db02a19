//! The certificate of a text in which nothing is unusual.
ghost use Rattle.std.specs.Prelude.{◌≡◌, IfSome};
ghost use Rattle.json.specs.Json.{Members, no_members, object};
ghost use Rattle.net_plan.{specs.CertificateText.{IsCertificateOf}, specs.Gathered.{AreParts, IsPlain, IsPlainText}, specs.PlainCertificate.{certificate_slots, IsCertificateBy}, specs.NameIndexes.{noted}, specs.Trees.{data_of}, specs.declared.name_index.NameIndex.{NameIndex}};
ghost use Rattle.plan_values.{specs.CertificateValues.{certificate_value}, specs.PlanValues.{plan_value}};

use crate::gather::{Gather, next_list, read_text, set_once};
use crate::level_parts::NextLevel;
use crate::name_index::NameIndex;
use crate::naming::NodeName;
use crate::next_value::next_number_within;
use crate::one_each::nodes_differ;
use crate::place_parts::NextPlaces;
use crate::rank_parts::NextRanks;
use plain_json::PlainReader;
use plan_values::{Certificate, NodeLevel, NodePlaces, NodeRanks, Plan};
use std::alloc::Global;

/// What is known so far of a certificate of nodes that this index finds.
#[derive(Drop)]
pub struct CertificateParts<'p, 'n> {
    nodes: &'p NameIndex<'n>,
    format: Option<u64>,
    levels: Option<Vec<NodeLevel>>,
    places: Option<Vec<NodePlaces>>,
    ranks: Option<Vec<NodeRanks>>,
}

impl<'p, 'n> CertificateParts<'p, 'n> {
    fn none(nodes: &'p NameIndex<'n>) -> CertificateParts<'p, 'n>
        ensures none { AreParts (certificate_slots result) no_members }
        ensures nodes { result.nodes.now ≡ nodes.now }
    {
        CertificateParts {
            nodes,
            format: None,
            levels: None,
            places: None,
            ranks: None,
        }
    }

    fn certificate(self) -> Option<Certificate>
        ensures { IfSome result (λ c. (ms : Members) → AreParts (certificate_slots self.entry) ms → IsCertificateBy (noted self.entry.nodes.now) (data_of (object ms)) (certificate_value c) × IsPlain (object ms)) }
    {
        let _format = self.format?;
        let levels = self.levels?;
        let places = self.places?;
        let ranks = self.ranks?;
        if !nodes_differ(levels.as_slice()) {
            return None;
        }
        if !nodes_differ(places.as_slice()) {
            return None;
        }
        if !nodes_differ(ranks.as_slice()) {
            return None;
        }
        Some(Certificate {
            levels,
            places,
            ranks,
        })
    }
}

impl<'p, 'n, 't> Gather<'t> for CertificateParts<'p, 'n> {
    ghost Holds = { λ p. AreParts (certificate_slots p) };

    ghost Given = { NameIndex };

    ghost given = { λ p. p.nodes.now };

    fn take(
        &mut self,
        alloc: Global,
        key: &'t str,
        reader: &mut PlainReader<'t>,
        depth: usize,
    ) -> Option<()> {
        let nodes = self.nodes;
        match key {
            "format" => set_once(&mut self.format, next_number_within(reader, 1, 1)?),
            "levels" => set_once(
                &mut self.levels,
                next_list(alloc, &NextLevel { nodes }, reader, depth, usize::MAX)?,
            ),
            "places" => set_once(
                &mut self.places,
                next_list(alloc, &NextPlaces { nodes }, reader, depth, usize::MAX)?,
            ),
            "ranks" => set_once(
                &mut self.ranks,
                next_list(alloc, &NextRanks { nodes }, reader, depth, usize::MAX)?,
            ),
            _ => None,
        }
    }
}

/// The certificate of a text in which nothing is unusual. Of any other text it says nothing.
pub fn plain_certificate(alloc: Global, plan: &Plan, text: &str) -> Option<Certificate>
    ensures { IfSome result (λ c. IsPlainText (IsCertificateOf (plan_value plan.now)) text.now (certificate_value c)) }
{
    let Ok(index) = NameIndex::of(alloc, &NodeName, plan.nodes.as_slice()) else {
        return None;
    };
    let mut parts = CertificateParts::none(&index);
    read_text(alloc, &mut parts, text)?;
    parts.certificate()
}
