//! Each public name of `net_plan`, `net_check` and `net_sim` that other programs stand on, used by its path, with its
//! fields and variants, the arguments of each call and the type of what it answers. Where one of them goes or changes,
//! this file doesn't compile. What the calls answer the other files test.
ghost use Rattle.std.specs.Prelude.{◌≡◌, ◌+◌, ◌-◌, ◌^◌, ◌<◌, ◌≤◌, length, vec_len};
ghost use Rattle.net_plan.specs.Stream.{HasRoom};
ghost use Rattle.net_sim.specs.Dealing.{planned_termini};

use mctp_control::Request;
use mctp_routing::ForwardFault;
use mctp_transport::{DropCause, Eid, Key, Tag};
use net_check::{
    CertifyError, ChainFault, CheckError, Checked, CheckedMove, Fault, MixedLoop, MoveError,
    MoveFault, MoveObstacle, MoveRule, Rule, Side, certify, certify_move, check, check_move,
};
use net_plan::{
    Bus, Certificate, Counted, Event, Failed, Kind, Name, Node, NodeLevel, NodePlaces, NodeRanks,
    Plan, PlanError, PlannedRecord, PlannedTerminus, Pool, Port, RankRange, RecordPlace, Row, Sink,
    Source, read_certificate, read_events, read_plan, write_certificate,
};
use net_sim::{
    Assignment, Effect, Handed, Network, Outcome, Played, Refusal, Standing, WalkRefusal, assign,
};
use pdr_repository::{Step, Terminus, WalkFault};
use std::alloc::{AllocError, Global};
use std::io::{Read, Write};

// What plans hold.

fn plan_parts(plan: &Plan) -> (u16, &Vec<Bus>, &Vec<Node>) {
    (plan.unit, &plan.buses, &plan.nodes)
}

fn bus_parts(bus: &Bus) -> (&Name, u8, u8) {
    (&bus.name, bus.binding, bus.media)
}

fn name_text(name: &Name) -> &String {
    &name.text
}

fn node_parts(node: &Node) -> (&Name, Kind, Eid, Option<usize>, Option<Pool>) {
    (&node.name, node.kind, node.eid, node.owner, node.pool)
}

fn node_lists(node: &Node) -> (&Vec<Port>, &Vec<Row>, &Option<PlannedTerminus>) {
    (&node.ports, &node.rows, &node.terminus)
}

fn is_bridge(kind: Kind) -> bool {
    match kind {
        Kind::Bridge => true,
        Kind::Endpoint => false,
    }
}

fn pool_of(first: Eid, size: u8) -> Pool {
    Pool { first, size }
}

fn port_of(bus: usize, address: Vec<u8>) -> Port
    requires { vec_len address ≤ 8 }
{
    Port { bus, address }
}

fn row_parts(row: Row) -> (Eid, u8, u8, usize) {
    (row.first, row.size, row.port, row.next)
}

fn terminus_of(tid: u8, records: Vec<PlannedRecord>) -> PlannedTerminus
    requires lawful_tid { tid ≤ 254 }
    requires few_records { vec_len records ≤ 4096 }
{
    PlannedTerminus { tid, records }
}

fn record_parts(record: &PlannedRecord) -> (u32, u32, &Vec<u8>) {
    (record.handle, record.next, &record.bytes)
}

// What certificates hold.

fn certificate_parts(made: &Certificate) -> (&Vec<NodeLevel>, &Vec<NodePlaces>, &Vec<NodeRanks>) {
    (&made.levels, &made.places, &made.ranks)
}

fn level_of(level: u8, node: usize) -> NodeLevel
    requires owned { 0 < level }
    requires within { level ≤ 63 }
{
    NodeLevel { level, node }
}

fn places_of(node: usize, places: Vec<RecordPlace>) -> NodePlaces {
    NodePlaces { node, places }
}

fn place_of(value: u16) -> RecordPlace
    requires { value < 4096 }
{
    RecordPlace { value }
}

fn ranks_of(node: usize, ranges: Vec<RankRange>) -> NodeRanks {
    NodeRanks { node, ranges }
}

fn range_of(first: Eid, rank: u8, size: u8) -> RankRange
    requires ranked { 0 < rank }
    requires some { 0 < size }
    requires within { first.value + size ≤ 256 }
{
    RankRange { first, rank, size }
}

// Events.

fn put(node: usize, bytes: Vec<u8>) -> Event {
    Event::Put { node, bytes }
}

fn events_of(flight: u32, keep: bool, node: usize, key: Key) -> [Event; 5] {
    [
        Event::Move { flight, keep },
        Event::Lose { flight },
        Event::Expire { node, key },
        Event::Answer { node },
        Event::Switch { node },
    ]
}

fn walk_of(node: usize, eid: Eid, tag: Tag, count: u16) -> Event {
    Event::Walk {
        node,
        eid,
        tag,
        count,
    }
}

fn event_word(event: &Event) -> &'static str {
    match event {
        Event::Put { .. } => "put",
        Event::Move { .. } => "move",
        Event::Lose { .. } => "lose",
        Event::Expire { .. } => "expire",
        Event::Answer { .. } => "answer",
        Event::Switch { .. } => "switch",
        Event::Walk { .. } => "walk",
        Event::Ask { .. } => "ask",
        Event::Collected { .. } => "collected",
    }
}

fn events_of_walker(walker: usize) -> [Event; 2] {
    [Event::Ask { walker }, Event::Collected { walker }]
}

// Texts.

fn source_pull<S: Source>(source: &mut S, buf: &mut [u8]) -> Result<usize, Failed>
    requires { HasRoom (S.account source.old) }
{
    source.pull(buf)
}

fn sink_push<S: Sink>(sink: &mut S, piece: &[u8]) -> Result<usize, Failed>
    requires { HasRoom (S.account sink.old) }
{
    sink.push(piece)
}

fn counted_of<T>(inner: T) -> Counted<T> {
    Counted::new(inner)
}

fn counted_pull<R: Read>(source: &mut Counted<R>, buf: &mut [u8]) -> Result<usize, Failed>
    requires { source.old.failures < 2 ^ 64 - 1 }
{
    source_pull(source, buf)
}

fn counted_push<W: Write>(sink: &mut Counted<W>, piece: &[u8]) -> Result<usize, Failed>
    requires { sink.old.failures < 2 ^ 64 - 1 }
{
    sink_push(sink, piece)
}

fn plan_read<S: Source>(alloc: Global, source: &mut S) -> Result<Plan, PlanError>
    requires { HasRoom (S.account source.old) }
{
    read_plan(alloc, source)
}

fn certificate_read<S: Source>(
    alloc: Global,
    plan: &Plan,
    source: &mut S,
) -> Result<Certificate, PlanError>
    requires { HasRoom (S.account source.old) }
{
    read_certificate(alloc, plan, source)
}

fn events_read<S: Source>(
    alloc: Global,
    plan: &Plan,
    source: &mut S,
) -> Result<Vec<Event>, PlanError>
    requires { HasRoom (S.account source.old) }
{
    read_events(alloc, plan, source)
}

fn certificate_written<S: Sink>(
    alloc: Global,
    plan: &Plan,
    certificate: &Certificate,
    sink: &mut S,
) -> Result<(), PlanError>
    requires { HasRoom (S.account sink.old) }
{
    write_certificate(alloc, plan, certificate, sink)
}

fn text_fault(error: PlanError) -> Option<&'static str> {
    match error {
        PlanError::NotJson => Some("J01"),
        PlanError::WrongKind => Some("J02"),
        PlanError::MissingKey => Some("J03"),
        PlanError::UnknownKey => Some("J04"),
        PlanError::OutOfRange => Some("J05"),
        PlanError::UnknownName => Some("J06"),
        PlanError::BadHex => Some("J07"),
        PlanError::OverLimit => Some("J08"),
        PlanError::Doubled => Some("J09"),
        PlanError::Device => Some("file"),
        PlanError::OutOfMemory => None,
    }
}

// Rules.

fn checked<'a>(
    alloc: Global,
    plan: &'a Plan,
    certificate: &'a Certificate,
) -> Result<Checked<'a>, CheckError> {
    check(alloc, plan, certificate)
}

fn checked_parts<'a>(checked: &Checked<'a>) -> (&'a Plan, &'a Certificate) {
    (checked.plan(), checked.certificate())
}

fn fault_found(error: CheckError) -> Option<Fault> {
    match error {
        CheckError::Fault(fault) => Some(fault),
        CheckError::OutOfMemory => None,
    }
}

fn fault_parts(fault: Fault) -> (Rule, usize, Option<usize>, Option<Eid>) {
    (fault.rule, fault.node, fault.entry, fault.eid)
}

fn rule_number(rule: Rule) -> u8 {
    match rule {
        Rule::C01 => 1,
        Rule::C02 => 2,
        Rule::C03 => 3,
        Rule::C04 => 4,
        Rule::C05 => 5,
        Rule::C06 => 6,
        Rule::C07 => 7,
        Rule::C08 => 8,
        Rule::C09 => 9,
        Rule::C10 => 10,
        Rule::C11 => 11,
        Rule::C12 => 12,
        Rule::C13 => 13,
        Rule::C14 => 14,
        Rule::C15 => 15,
        Rule::C16 => 16,
    }
}

fn certified(alloc: Global, plan: &Plan) -> Result<Certificate, CertifyError> {
    certify(alloc, plan)
}

fn obstacle_nodes(error: &CertifyError) -> Option<(Option<Eid>, &Vec<usize>)> {
    match error {
        CertifyError::Loop(eid, nodes) => Some((Some(*eid), nodes)),
        CertifyError::OwnerLoop(nodes) => Some((None, nodes)),
        CertifyError::Fault(_) | CertifyError::BadChain(..) | CertifyError::OutOfMemory => None,
    }
}

fn other_obstacles(fault: Fault, node: usize, kind: ChainFault, entry: usize) -> [CertifyError; 2] {
    [
        CertifyError::Fault(fault),
        CertifyError::BadChain(node, kind, entry),
    ]
}

fn chain_word(kind: ChainFault) -> &'static str {
    match kind {
        ChainFault::Missing => "missing",
        ChainFault::Doubled => "doubled",
        ChainFault::Circle => "circle",
    }
}

// Moves.

fn checked_move<'a>(
    alloc: Global,
    before: &'a Plan,
    after: &'a Plan,
    certificate: &'a Certificate,
) -> Result<CheckedMove<'a>, MoveError> {
    check_move(alloc, before, after, certificate)
}

fn moved_parts<'a>(checked: &CheckedMove<'a>) -> (&'a Plan, &'a Plan, &'a Certificate) {
    (checked.before(), checked.after(), checked.certificate())
}

fn move_fault(error: MoveError) -> Result<Option<MoveFault>, Option<usize>> {
    match error {
        MoveError::Differ(node) => Err(node),
        MoveError::Old(fault) | MoveError::New(fault) | MoveError::Both(fault) => Ok(Some(fault)),
        MoveError::OutOfMemory => Ok(None),
    }
}

fn move_fault_parts(fault: MoveFault) -> (MoveRule, usize, Option<usize>, Option<Eid>) {
    (fault.rule, fault.node, fault.entry, fault.eid)
}

fn rule_of_plan(rule: MoveRule) -> Option<Rule> {
    match rule {
        MoveRule::OfPlan(rule) => Some(rule),
        MoveRule::M02 | MoveRule::M03 => None,
    }
}

fn certified_move(alloc: Global, before: &Plan, after: &Plan) -> Result<Certificate, MoveObstacle> {
    certify_move(alloc, before, after)
}

fn move_obstacle(obstacle: &MoveObstacle) -> (Option<&CertifyError>, Option<&MoveError>) {
    match obstacle {
        MoveObstacle::Old(error) => (Some(error), None),
        MoveObstacle::Fault(error) => (None, Some(error)),
        MoveObstacle::Loop(_) | MoveObstacle::OutOfMemory => (None, None),
    }
}

fn mixed_loop_of(eid: Eid, nodes: Vec<usize>, sides: Vec<Side>) -> MoveObstacle {
    MoveObstacle::Loop(MixedLoop { eid, nodes, sides })
}

fn is_old(side: Side) -> bool {
    match side {
        Side::Old => true,
        Side::New => false,
    }
}

// Networks and their runs.

fn network_of<'a, T: Terminus>(
    alloc: Global,
    checked: Checked<'a>,
    termini: Vec<T>,
) -> Result<Network<'a, T>, AllocError>
    requires { length termini.items ≡ length (planned_termini checked.0 checked.1) }
{
    Network::new(alloc, checked, termini)
}

fn network_of_boxes<'a>(
    alloc: Global,
    checked: Checked<'a>,
    termini: Vec<Box<dyn Terminus>>,
) -> Result<Network<'a>, AllocError>
    requires { length termini.items ≡ length (planned_termini checked.0 checked.1) }
{
    network_of(alloc, checked, termini)
}

fn network_of_move<'a, T: Terminus>(
    alloc: Global,
    checked: CheckedMove<'a>,
    termini: Vec<T>,
) -> Result<Network<'a, T>, AllocError>
    requires { length termini.items ≡ length (planned_termini checked.0 checked.2) }
{
    Network::new_move(alloc, checked, termini)
}

fn network_step<T: Terminus>(
    network: &mut Network<'_, T>,
    event: &Event,
) -> Result<Outcome, AllocError> {
    network.step(event)
}

fn network_run<T: Terminus>(
    network: &mut Network<'_, T>,
    events: &[Event],
) -> Result<Played, AllocError> {
    network.run(events)
}

fn network_collected<'n, T: Terminus>(
    network: &'n Network<'_, T>,
    walker: usize,
) -> Option<&'n [Vec<u8>]> {
    network.collected(walker)
}

fn played_of(outcomes: Vec<Outcome>, stopped: bool) -> Played {
    Played { outcomes, stopped }
}

// Outcomes.

fn outcome_of(effect: Effect, handed: Option<Handed>) -> Outcome {
    Outcome::Happened { effect, handed }
}

fn walk_outcomes(
    walker: usize,
    number: u32,
    records: usize,
    standing: Standing,
    why: WalkRefusal,
) -> [Outcome; 4] {
    [
        Outcome::Begun { walker },
        Outcome::Asked { walker, number },
        Outcome::Collected {
            walker,
            records,
            standing,
        },
        Outcome::Refused(why),
    ]
}

fn outcome_effect(outcome: &Outcome) -> Option<&Effect> {
    match outcome {
        Outcome::Happened { effect, .. } => Some(effect),
        Outcome::Begun { .. }
        | Outcome::Asked { .. }
        | Outcome::Collected { .. }
        | Outcome::Refused(_) => None,
    }
}

fn handed_of(walker: usize, taken: Result<Step, WalkFault>) -> Handed {
    Handed {
        walker,
        result: taken,
    }
}

fn whole_of(number: u32, node: usize, key: Key, bytes: Vec<u8>) -> Effect {
    Effect::Whole {
        number,
        node,
        key,
        bytes,
    }
}

fn flight_effects(number: u32, node: usize, hops: u8, key: Key) -> [Effect; 4] {
    [
        Effect::PutIn { number, node },
        Effect::Moved { number, node, hops },
        Effect::Held { number, node, key },
        Effect::Lost { number },
    ]
}

fn dropped_of(number: u32, node: usize, key: Key, why: DropCause) -> Effect {
    Effect::Dropped {
        number,
        node,
        key,
        why,
    }
}

fn stopped_of(number: u32, why: ForwardFault) -> Effect {
    Effect::Stopped { number, why }
}

fn node_effects(node: usize, was_open: bool, first: u32, last: u32) -> [Effect; 4] {
    [
        Effect::Expired { node, was_open },
        Effect::Answered { node, first, last },
        Effect::Silent { node },
        Effect::Switched { node },
    ]
}

fn effect_refusal(effect: &Effect) -> Option<Refusal> {
    match effect {
        Effect::PutIn { .. }
        | Effect::Moved { .. }
        | Effect::Held { .. }
        | Effect::Whole { .. }
        | Effect::Dropped { .. }
        | Effect::Stopped { .. }
        | Effect::Lost { .. }
        | Effect::Expired { .. }
        | Effect::Answered { .. }
        | Effect::Silent { .. }
        | Effect::Switched { .. } => None,
        Effect::Refused(why) => Some(*why),
    }
}

fn refusal_code(why: Refusal) -> &'static str {
    match why {
        Refusal::NoNode => "N01",
        Refusal::NoPacket => "N02",
        Refusal::NoFlight => "N03",
        Refusal::NoTerminus => "N04",
        Refusal::NothingWaits => "N05",
        Refusal::NoNumbers => "N06",
        Refusal::NoSwitch => "N07",
    }
}

fn walk_refusal_code(why: WalkRefusal) -> &'static str {
    match why {
        WalkRefusal::Shared(why) => refusal_code(why),
        WalkRefusal::WalkerThere => "N08",
        WalkRefusal::NoTerminusThere => "N09",
        WalkRefusal::WrongCount => "N10",
        WalkRefusal::NoWalker => "N11",
        WalkRefusal::Unsettled => "N12",
        WalkRefusal::WalkOver => "N13",
    }
}

fn walk_fault(standing: Standing) -> Option<WalkFault> {
    match standing {
        Standing::Open | Standing::Done => None,
        Standing::Ended(fault) => Some(fault),
    }
}

// Assignments.

fn assigned(alloc: Global, checked: &Checked) -> Result<Vec<Assignment>, AllocError> {
    assign(alloc, checked)
}

fn assignment_of(bus: usize, node: usize, body: Request) -> Assignment {
    Assignment { bus, node, body }
}
