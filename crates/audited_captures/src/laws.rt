//! Laws of audits. The functions do nothing: their contracts are the laws.
ghost use Rattle.audited_captures.{specs.AsPlanned.{MatchesWhereAsPlanned}, specs.Forwarding.{TablesForward, AuditsForward}, specs.Matching.{NodesMatchWhereAsPlanned, NodesCompareWhereHeard, TrafficMatchesWhereAsPlanned, AuditMatches, MatchesAudit}};

/// What was read of a routing table tells no difference exactly where it is what is planned: each planned entry was
/// read, each that was read is planned, and none was read twice.
pub fn matches_where_as_planned()
    ensures { MatchesWhereAsPlanned }
{}

/// No line of a node tells a difference exactly where all that it said is planned: each reading of its routing table,
/// each answer that tells its endpoint ID, its type or its pool, and each answer about its records; and it refused
/// nothing of these for good.
pub fn nodes_match_where_as_planned()
    ensures { NodesMatchWhereAsPlanned }
{}

/// A line of a node tells of a comparison exactly where one was made: a reading of its routing table, an answer that
/// tells its endpoint ID, its type or its pool, one that refuses this, or one about its records.
pub fn nodes_compare_where_heard()
    ensures { NodesCompareWhereHeard }
{}

/// No line about packets tells a difference exactly where each packet of the capture is planned on the bus: some node
/// holds its source, some node its destination, and the way between them goes over the bus.
pub fn traffic_matches_where_as_planned()
    ensures { TrafficMatchesWhereAsPlanned }
{}

/// An audit matches exactly where all nodes have said what is planned, each packet is planned on the bus, and something
/// that a node said was laid beside the plan.
pub fn audits_match_where_as_planned()
    ensures matches { AuditMatches }
    ensures matched { MatchesAudit }
{}

/// A bridge forwards by the plan's rows, as far as it told its routing table: where the table that was read tells no
/// difference, an entry is for an endpoint ID exactly where a row of the bridge covers it, and leads on as the row
/// does: through its port, to the address of its next node. So it is of each table in an audit that matches.
pub fn told_tables_forward_as_planned()
    ensures tables { TablesForward }
    ensures audits { AuditsForward }
{}
