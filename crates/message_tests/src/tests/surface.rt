//! Each public name of the message crates, used by its path, with the arguments of each call, the type of what it
//! answers, and the fields and variants that are written here. Where one of them goes or changes, this file doesn't
//! compile. What the calls answer, and the variants of refusals, the other files test.
ghost use Rattle.std.specs.Prelude.{◌≡◌, ◌+◌, ◌^◌, ◌<◌, ◌≤◌, All, length};
ghost use Rattle.arrayvec.specs.ArrayVec.{array_vec_len};
ghost use Rattle.mctp_transport.{specs.PacketValues.{IsAssignable, IsUnit, packet_value_bytes}, specs.Packets.{packet_value_of}};
ghost use Rattle.mctp_control.specs.Ranges.{IsAssignableRange};
ghost use Rattle.pdr_repository.specs.Records.{entries, IsLawful};

use arrayvec::ArrayVec;
use mctp_bridge::{
    Decision, EntryReader, ForwardFault, ForwardingNode, Hop, Neighbor, Piece, Pieces, RangeTable,
    ReadFault, TableFault, TableRow, decide, route_entries,
};
use mctp_control::{
    ControlCommand, ControlError, ControlInstanceId, Device, DeviceKind, EidPool, EidRange,
    Request, Response, RouteEntry,
};
use mctp_transport::{
    Assembler, DropCause, Eid, Fed, Header, Key, Packet, PacketError, PacketView, Packets,
    Reserved, Seq, Tag, Wire,
};
use pdr_record::{Body, Record, RecordError};
use pdr_repository::{
    BlockTerminus, ListTerminus, Step, Terminus, WalkFault, Walker, crc8, five_packets,
};
use pldm_message::{
    GetPdrAnswer, GetPdrRequest, GetPldmTypes, GetPldmTypesAnswer, GetTid, GetTidAnswer,
    InstanceId, InstanceIds, PldmError, PldmHeader, SetTid, SetTidAnswer, Tid,
};
use std::alloc::{AllocError, Global};

// Packets, cutting and assembly.

fn header_of(key: Key, destination: Eid, number: Seq, reserved: Reserved) -> Header {
    let Key { source, tag, owner } = key;
    Header {
        reserved,
        destination,
        source,
        som: true,
        eom: true,
        number,
        owner,
        tag,
    }
}

fn key_of(source: Eid, tag: Tag, owner: bool) -> Key {
    Key { source, tag, owner }
}

fn packet_read(bytes: &[u8]) -> Result<PacketView<'_>, PacketError> {
    PacketView::read(bytes)
}

fn packet_read_within(bytes: &[u8], unit: usize) -> Result<PacketView<'_>, PacketError>
    requires { IsUnit unit }
{
    PacketView::read_within(bytes, unit)
}

fn packet_of(header: Header, payload: ArrayVec<u8, 1024>) -> Packet
    requires { 0 < array_vec_len payload }
{
    Packet { header, payload }
}

fn packet_view(packet: &Packet) -> PacketView<'_> {
    packet.view()
}

fn view_of(header: Header, payload: &[u8]) -> PacketView<'_>
    requires some { 0 < length payload.now }
    requires most { length payload.now ≤ 1024 }
{
    PacketView { header, payload }
}

fn packet_put(packet: &PacketView, out: &mut [u8]) -> usize
    requires { length (packet_value_bytes (packet_value_of packet.now)) ≤ length out.old }
{
    let _len: usize = packet.len();
    packet.put(out)
}

fn wire_read<'a, W: Wire<'a>>(bytes: &'a [u8]) -> Result<W, W::Error> {
    W::read(bytes)
}

fn wire_put<'a, W: Wire<'a>>(value: &W, out: &mut [u8]) -> usize
    requires { length (W.spelling (W.meaning value.now)) ≤ length out.old }
{
    let _len: usize = value.len();
    value.put(out)
}

fn message_cut<'a>(message: &'a [u8], destination: Eid, key: Key, start: Seq) -> Packets<'a>
    requires some { 0 < length message.now }
    requires most { length message.now ≤ 4096 }
{
    Packets::of(message, destination, key, start)
}

fn message_cut_within<'a>(
    unit: usize,
    message: &'a [u8],
    destination: Eid,
    key: Key,
    start: Seq,
) -> Packets<'a>
    requires unit { IsUnit unit }
    requires some { 0 < length message.now }
    requires most { length message.now ≤ 4096 }
{
    Packets::within(unit, message, destination, key, start)
}

fn packet_next<'a>(packets: &mut Packets<'a>) -> Option<PacketView<'a>> {
    packets.next()
}

fn assembler_new(alloc: Global, slots: usize, limit: usize) -> Result<Assembler, AllocError>
    requires slots { (1 ≤ slots) × (slots ≤ 64) }
    requires limit { (1 ≤ limit) × (limit ≤ 4096) }
{
    Assembler::new(alloc, slots, limit)
}

fn assembler_feed<'a>(assembler: &'a mut Assembler, packet: PacketView<'a>) -> Fed<'a> {
    assembler.feed(packet)
}

fn fed_cause(fed: Fed) -> Option<DropCause> {
    match fed {
        Fed::Whole(_) | Fed::Held => None,
        Fed::Dropped(why) => Some(why),
    }
}

fn assembler_expire(assembler: &mut Assembler, key: Key) -> bool {
    assembler.expire(key)
}

fn assembler_open(assembler: &Assembler, key: Key) -> (bool, usize) {
    (assembler.is_open(key), assembler.open_slots())
}

// Control messages, devices and pools.

fn request_read(bytes: &[u8]) -> Result<Request, ControlError> {
    wire_read(bytes)
}

fn request_number(request: Request) -> u8 {
    match request.command {
        ControlCommand::SetEndpointId { .. } => 0x01,
        ControlCommand::GetEndpointId => 0x02,
        ControlCommand::AllocateEndpointIds { .. } => 0x08,
        ControlCommand::GetRoutingTableEntries { .. } => 0x0a,
    }
}

fn response_read(bytes: &[u8]) -> Result<Response, ControlError> {
    wire_read(bytes)
}

fn entry_read(bytes: &[u8]) -> Result<RouteEntry, ControlError> {
    wire_read(bytes)
}

fn entry_address(entry: &RouteEntry) -> &ArrayVec<u8, 52> {
    &entry.address
}

fn devices(wants: u8, eid: Eid, pool: EidRange) -> [Device; 3]
    requires { IsAssignable eid.value }
{
    [
        Device::endpoint(),
        Device::bridge(wants),
        Device::configured(DeviceKind::Bridge, eid, Some(pool)),
    ]
}

fn device_answer(
    device: &mut Device,
    bus: u8,
    table: &[RouteEntry],
    body: &[u8],
) -> Option<ArrayVec<u8, 64>>
    requires { length table.now < 255 }
{
    device.answer(bus, table, body)
}

fn pool_new(first: Eid, size: u8) -> EidPool
    requires { IsAssignableRange first.value size }
{
    EidPool::new(first, size)
}

fn pool_take(pool: &mut EidPool) -> Option<Eid> {
    pool.take()
}

fn pool_take_block(pool: &mut EidPool, count: u8) -> Option<Eid>
    requires { 0 < count }
{
    pool.take_block(count)
}

fn pool_give_back(pool: &mut EidPool, eid: Eid) -> bool {
    pool.give_back(eid)
}

// Tables, decisions and entries.

fn row_of(first: Eid, size: u8, port: u8, next: usize) -> TableRow {
    TableRow {
        first,
        size,
        hop: Hop { port, next },
    }
}

fn table_build(alloc: Global, rows: &[TableRow]) -> Result<RangeTable, TableFault> {
    RangeTable::build(alloc, rows)
}

fn table_next(table: &RangeTable, eid: Eid) -> Option<Hop> {
    table.next(eid)
}

fn table_pieces(table: &RangeTable, first: Eid, last: Eid) -> Pieces<'_>
    requires { first.value ≤ last.value }
{
    table.pieces(first, last)
}

fn piece_next(pieces: &mut Pieces) -> Option<(Eid, Eid, Option<Hop>)> {
    let Piece { first, last, hop } = pieces.next()?;
    Some((first, last, hop))
}

fn node_of(eid: Eid, kind: DeviceKind, table: &RangeTable) -> ForwardingNode<'_> {
    ForwardingNode { eid, kind, table }
}

fn decided(node: &ForwardingNode, at_origin: bool, header: &Header) -> Decision {
    decide(node, at_origin, header)
}

fn decision_fault(decision: Decision) -> Option<ForwardFault> {
    match decision {
        Decision::Here | Decision::Forward(Hop { .. }) => None,
        Decision::Drop(why) => Some(why),
    }
}

fn neighbor_of<'a>(
    kind: DeviceKind,
    eid: Eid,
    binding: u8,
    media: u8,
    address: &'a [u8],
) -> Neighbor<'a> {
    Neighbor {
        kind,
        eid,
        binding,
        media,
        address,
    }
}

fn entries_of_table(
    alloc: Global,
    table: &RangeTable,
    facts: &[Neighbor],
) -> Result<Vec<RouteEntry>, AllocError>
    requires one_each { length facts.now ≡ length table.now }
    requires addresses { All (λ fact. length fact.address.now ≤ 8) facts.now }
    requires ports { All (λ row. row.hop.port < 32) table.now }
{
    route_entries(alloc, table, facts)
}

fn reader_new(alloc: Global) -> Result<EntryReader, AllocError> {
    EntryReader::new(alloc)
}

fn reader_next_request(reader: &mut EntryReader, id: ControlInstanceId) -> Option<[u8; 4]> {
    reader.next_request(id)
}

fn reader_take(reader: &mut EntryReader, answer: &[u8]) -> Result<bool, ReadFault> {
    reader.take(answer)
}

fn reader_entries(reader: &EntryReader) -> (&[RouteEntry], usize) {
    (reader.entries(), reader.taken())
}

// PLDM messages and instance IDs.

fn header_read(bytes: &[u8]) -> Result<PldmHeader, PldmError> {
    wire_read(bytes)
}

fn get_pdr_read(bytes: &[u8]) -> Result<GetPdrRequest, PldmError> {
    wire_read(bytes)
}

fn get_pdr_answer_read(bytes: &[u8]) -> Result<GetPdrAnswer<'_>, PldmError> {
    wire_read(bytes)
}

fn set_tid_read(bytes: &[u8]) -> (Result<SetTid, PldmError>, Result<SetTidAnswer, PldmError>) {
    (wire_read(bytes), wire_read(bytes))
}

fn get_tid_read(bytes: &[u8]) -> (Result<GetTid, PldmError>, Result<GetTidAnswer, PldmError>) {
    (wire_read(bytes), wire_read(bytes))
}

fn get_types_read(bytes: &[u8]) -> Result<GetPldmTypes, PldmError> {
    wire_read(bytes)
}

fn get_types_answer_read(bytes: &[u8]) -> Result<GetPldmTypesAnswer, PldmError> {
    wire_read(bytes)
}

fn ids_new() -> InstanceIds {
    InstanceIds::new()
}

fn ids_take(ids: &mut InstanceIds) -> Option<InstanceId> {
    ids.take()
}

fn ids_give_back(ids: &mut InstanceIds, id: InstanceId) -> bool {
    ids.give_back(id)
}

// Records.

fn record_read(bytes: &[u8]) -> Result<Record<'_>, RecordError> {
    wire_read(bytes)
}

fn record_type(record: &Record) -> u8 {
    let _header: (u32, u16) = (record.handle, record.change);
    match record.body {
        Body::Terminus(_) => 1,
        Body::Numeric(_) => 2,
        Body::State(_) => 4,
        Body::Association(_) => 15,
        Body::Other { record_type, .. } => record_type,
    }
}

// Termini and walks.

fn terminus_answer<T: Terminus>(
    terminus: &mut T,
    request: &[u8],
    out: &mut ArrayVec<u8, 4096>,
) -> bool {
    terminus.answer(request, out)
}

fn boxed_answer(
    terminus: &mut Box<dyn Terminus>,
    request: &[u8],
    out: &mut ArrayVec<u8, 4096>,
) -> bool {
    terminus_answer(terminus, request, out)
}

fn list_new(
    alloc: Global,
    tid: Tid,
    records: Vec<(u32, Vec<u8>)>,
) -> Result<ListTerminus, AllocError>
    requires few { length records.items ≤ 4096 }
    requires lawful { IsLawful (entries records.items) }
{
    ListTerminus::new(alloc, tid, records)
}

fn block_new(
    alloc: Global,
    tid: Tid,
    records: Vec<(u32, Vec<u8>)>,
) -> Result<BlockTerminus, AllocError>
    requires few { length records.items ≤ 4096 }
    requires lawful { IsLawful (entries records.items) }
{
    BlockTerminus::new(alloc, tid, records)
}

fn block_part(terminus: &BlockTerminus, handle: u32, offset: usize, count: usize) -> Option<&[u8]> {
    terminus.part(handle, offset, count)
}

fn list_boxed(alloc: Global, list: ListTerminus) -> Result<Box<dyn Terminus>, AllocError> {
    Ok(Box::new(alloc, list)?)
}

fn block_boxed(alloc: Global, block: BlockTerminus) -> Result<Box<dyn Terminus>, AllocError> {
    Ok(Box::new(alloc, block)?)
}

fn walker_new(
    alloc: Global,
    count: u16,
    max_records: usize,
    max_bytes: usize,
) -> Result<Walker, AllocError>
    requires count { (8 ≤ count) × (count ≤ 4079) }
    requires max_bytes { max_bytes + 1 < 2 ^ 64 }
{
    Walker::new(alloc, count, max_records, max_bytes)
}

fn walker_next_request(walker: &mut Walker, id: InstanceId) -> Option<[u8; 17]> {
    walker.next_request(id)
}

fn walker_reserve(walker: &mut Walker) -> Result<(), AllocError> {
    walker.reserve()
}

fn walker_take(walker: &mut Walker, answer: &[u8]) -> Result<Step, WalkFault> {
    walker.take(answer)
}

fn step_number(step: Step) -> u8 {
    match step {
        Step::More => 0,
        Step::Record => 1,
        Step::Done => 2,
    }
}

fn walker_records(walker: &Walker) -> (&[Vec<u8>], usize) {
    (walker.records(), walker.taken())
}

#[test]
fn worked_values(rt: HostRuntime) {
    let crc: u8 = crc8(b"123456789");
    let most: u16 = five_packets(64);
    assert_eq!(rt; (crc, most), (0xf4, 303));
}
