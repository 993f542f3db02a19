//! What certificates have.
use plan_values::{Certificate, NodePlaces, NodeRanks};

/// Whether a certificate has these levels, each of a node.
fn has_levels(certificate: &Certificate, wanted: &[(usize, u8)]) -> bool {
    for (given, (node, level)) in certificate.levels.iter().zip(wanted) {
        if given.node != *node || given.level != *level {
            return false;
        }
    }
    certificate.levels.len() == wanted.len()
}

/// Whether these are the places of a node's one record, which is the first.
fn is_one_place(given: &NodePlaces, node: usize) -> bool {
    given.node == node && given.places.len() == 1 && given.places[0].value == 0
}

/// Whether these are the ranks of a node, in ranges each of a first endpoint ID, a rank and a size.
fn has_ranges(given: &NodeRanks, node: usize, wanted: &[(u8, u8, u8)]) -> bool {
    for (range, (first, rank, size)) in given.ranges.iter().zip(wanted) {
        if range.first.value != *first || range.rank != *rank || range.size != *size {
            return false;
        }
    }
    given.node == node && given.ranges.len() == wanted.len()
}

/// Whether this is the certificate of the riser network.
pub fn is_the_riser_certificate(certificate: &Certificate) -> bool {
    has_levels(certificate, &[(1, 1), (2, 2), (3, 2)])
        && certificate.places.len() == 1
        && is_one_place(&certificate.places[0], 2)
        && certificate.ranks.len() == 4
        && has_ranges(
            &certificate.ranks[0],
            0,
            &[(16, 1, 1), (17, 2, 2), (19, 1, 5)],
        )
        && has_ranges(&certificate.ranks[3], 3, &[(8, 2, 1), (9, 1, 8)])
}
