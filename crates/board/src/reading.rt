//! Reading a board from its TOML text.
use crate::addresses::{AddressForm, PortText, read_form, wire_address};
use crate::board::{Board, BoardBus, BoardNode, BoardPool, BoardPort, BoardRow};
use crate::fault::BoardError;
use crate::given::{Given, nearest_of};
use crate::items::{index_of, read_pool_eids, read_port, read_row};
use crate::record_words::read_records;
use net_pointers::shown_key;
use plan_values::{Kind, is_name};
use std::alloc::{AllocError, Global};
use toml::{Table, Value};

/// The most buses, and the most nodes.
const MOST: usize = 64;

const A_NAME: &str = "a name of 1 to 32 letters, digits, '-', '_' or '.'";

const A_NODE: &str = "the name of a node";

const A_PORT: &str = "a bus and an address in lower-case hex, as \"i2c0 3a\",";

const A_ROW: &str = "endpoint IDs, a node and a port from 0 to 31, as \"16-31 via switch port 0\",";

const NODES: &str = "a list of at most 64 tables, each under [[node]],";

const BUSES: &str = "a list of at most 64 tables, each under [[bus]],";

/// The board that a text stands for, whose table this is.
pub fn read_board<'v>(alloc: Global, text: &'v str, table: &'v Table) -> Result<Board, BoardError> {
    let top = Given {
        alloc,
        text,
        table,
        within: None,
        record: None,
    };
    top.check_keys(&["unit", "bus", "node"], "only unit, bus or node")?;
    let unit = read_unit(&top)?;
    let bus_values = top.list("bus", MOST, BUSES)?;
    let node_values = top.list("node", MOST, NODES)?;
    let buses = names_of(&top, "bus", bus_values)?;
    let nodes = names_of(&top, "node", node_values)?;
    let names = Names {
        buses: buses.as_slice(),
        forms: &[],
        nodes: nodes.as_slice(),
    };
    read_parts(&top, unit, bus_values, node_values, names)
}

/// The board of these buses and nodes, which have these names.
fn read_parts(
    top: &Given,
    unit: u16,
    bus_values: &[Value],
    node_values: &[Value],
    names: Names,
) -> Result<Board, BoardError> {
    let buses = read_buses(top, bus_values)?;
    let forms = read_forms(top, bus_values, &buses)?;
    let known = Names {
        buses: names.buses,
        forms: forms.as_slice(),
        nodes: names.nodes,
    };
    let nodes = read_nodes(top, node_values, known)?;
    Ok(Board { unit, buses, nodes })
}

/// The names of buses and of nodes, in their order, and how addresses on each bus are written.
#[derive(Clone, Copy)]
pub struct Names<'n, 'v> {
    pub buses: &'n [&'v str],
    pub forms: &'n [AddressForm],
    pub nodes: &'n [&'v str],
}

fn read_unit(top: &Given) -> Result<u16, BoardError> {
    match top.number("unit", 64, 1024, "a number from 64 to 1024")? {
        Some(unit) => Ok(u16::try_from(unit).unwrap_or(64)),
        None => Ok(64),
    }
}

/// A table of a list of tables.
fn table_at<'v>(
    top: &Given<'v>,
    list: &'static str,
    index: usize,
    value: &'v Value,
) -> Result<Given<'v>, BoardError> {
    match value {
        Value::Table(table) => Ok(Given {
            alloc: top.alloc,
            text: top.text,
            table,
            within: Some((list, index)),
            record: None,
        }),
        _ => Err(top.fault(list, Some(index), "a table")),
    }
}

/// The names of the tables of a list, which differ.
fn names_of<'v>(
    top: &Given<'v>,
    list: &'static str,
    values: &'v [Value],
) -> Result<Vec<&'v str>, BoardError> {
    let mut names = Vec::new(top.alloc);
    for (index, value) in values.iter().enumerate() {
        let name = read_new_name(&table_at(top, list, index, value)?, &names)?;
        names.push(name)?;
    }
    Ok(names)
}

fn read_new_name<'v>(given: &Given<'v>, names: &[&str]) -> Result<&'v str, BoardError> {
    let name = read_name(given)?;
    if index_of(names, name).is_some() {
        return Err(given.fault("name", None, "a name that no earlier table of the list has"));
    }
    Ok(name)
}

fn read_name<'v>(given: &Given<'v>) -> Result<&'v str, BoardError> {
    let name = given.needed_text("name", A_NAME)?;
    if !is_name(name) {
        return Err(given.fault("name", None, A_NAME));
    }
    Ok(name)
}

fn read_buses<'v>(top: &Given<'v>, values: &'v [Value]) -> Result<Vec<BoardBus>, BoardError> {
    let mut buses = Vec::new(top.alloc);
    for (index, value) in values.iter().enumerate() {
        buses.push(read_bus(&table_at(top, "bus", index, value)?)?)?;
    }
    Ok(buses)
}

/// How the addresses of the ports on each bus are written.
fn read_forms(
    top: &Given,
    values: &[Value],
    buses: &[BoardBus],
) -> Result<Vec<AddressForm>, BoardError> {
    let mut forms = Vec::new(top.alloc);
    for (index, (value, bus)) in values.iter().zip(buses).enumerate() {
        forms.push(read_form(&table_at(top, "bus", index, value)?, bus.binding)?)?;
    }
    Ok(forms)
}

fn read_bus(given: &Given) -> Result<BoardBus, BoardError> {
    given.check_keys(
        &["name", "binding", "media", "addresses"],
        "only name, binding, media or addresses",
    )?;
    let name = read_name(given)?;
    let binding = read_binding(given)?;
    let media = given.byte("media", 0, 255, "a number from 0 to 255")?;
    Ok(BoardBus {
        name: name.to_string(given.alloc)?,
        binding,
        media: media.unwrap_or(0),
    })
}

/// The number of a binding (DSP0239), or its word.
fn read_binding(given: &Given) -> Result<u8, BoardError> {
    let wanted = "smbus, i2c, pcie, usb, kcs, serial, i3c or a number from 0 to 255";
    if let Some(Value::String(word)) = given.value("binding") {
        return match word.as_str() {
            "smbus" | "i2c" => Ok(1),
            "pcie" => Ok(2),
            "usb" => Ok(3),
            "kcs" => Ok(4),
            "serial" => Ok(5),
            "i3c" => Ok(6),
            _ => Err(given.fault("binding", None, wanted)),
        };
    }
    match given.byte("binding", 0, 255, wanted)? {
        Some(number) => Ok(number),
        None => Err(given.fault("binding", None, wanted)),
    }
}

fn read_nodes<'v>(
    top: &Given<'v>,
    values: &'v [Value],
    names: Names,
) -> Result<Vec<BoardNode>, BoardError> {
    let mut nodes = Vec::new(top.alloc);
    for (index, value) in values.iter().enumerate() {
        nodes.push(read_node(&table_at(top, "node", index, value)?, names)?)?;
    }
    Ok(nodes)
}

fn read_node(given: &Given, names: Names) -> Result<BoardNode, BoardError> {
    check_node_keys(given)?;
    let mut node = node_of_name(given, read_name(given)?)?;
    read_choices(given, names, &mut node)?;
    read_lists(given, names, &mut node)?;
    Ok(node)
}

/// A node of which nothing is given but its name.
fn node_of_name(given: &Given, name: &str) -> Result<BoardNode, BoardError> {
    Ok(BoardNode {
        name: name.to_string(given.alloc)?,
        kind: None,
        eid: None,
        owner: None,
        pool: None,
        ports: Vec::new(given.alloc),
        reaches: None,
        rows: Vec::new(given.alloc),
        tid: None,
        records: Vec::new(given.alloc),
    })
}

fn read_choices(given: &Given, names: Names, node: &mut BoardNode) -> Result<(), BoardError> {
    node.kind = read_kind(given)?;
    node.eid = given.byte("eid", 8, 254, "a number from 8 to 254")?;
    node.owner = read_owner(given, names)?;
    node.pool = read_pool(given)?;
    Ok(())
}

fn read_lists(given: &Given, names: Names, node: &mut BoardNode) -> Result<(), BoardError> {
    read_ports(given, names, &mut node.ports)?;
    node.reaches = read_reaches(given, names)?;
    read_rows(given, names, &mut node.rows)?;
    node.tid = given.byte("tid", 0, 254, "a number from 0 to 254")?;
    read_records(given, names, &mut node.records)
}

fn check_node_keys(given: &Given) -> Result<(), BoardError> {
    given.check_keys(
        &[
            "name", "kind", "eid", "owner", "pool", "ports", "reaches", "rows", "tid", "record",
        ],
        "only name, kind, eid, owner, pool, ports, reaches, rows, tid or record",
    )
}

fn read_kind(given: &Given) -> Result<Option<Kind>, BoardError> {
    let wanted = "\"bridge\" or \"endpoint\"";
    match given.text("kind", wanted)? {
        None => Ok(None),
        Some("bridge") => Ok(Some(Kind::Bridge)),
        Some("endpoint") => Ok(Some(Kind::Endpoint)),
        Some(_) => Err(given.fault("kind", None, wanted)),
    }
}

fn read_owner(given: &Given, names: Names) -> Result<Option<usize>, BoardError> {
    let Some(name) = given.text("owner", A_NODE)? else {
        return Ok(None);
    };
    match index_of(names.nodes, name) {
        Some(node) => Ok(Some(node)),
        None => Err(given.fault_near("owner", None, A_NODE, name, names.nodes)),
    }
}

fn read_pool(given: &Given) -> Result<Option<BoardPool>, BoardError> {
    let wanted = "a text as \"9-63\", or how many endpoint IDs it has, from 1 to 247,";
    let Some(Value::String(text)) = given.value("pool") else {
        let size = given.number("pool", 1, 247, wanted)?;
        return Ok(size.map(|size| BoardPool::Size(u8::try_from(size).unwrap_or(1))));
    };
    match read_pool_eids(text.as_str()) {
        Some((first, size)) => Ok(Some(BoardPool::Range { first, size })),
        None => Err(given.fault("pool", None, wanted)),
    }
}

/// The text at an index of a list.
fn text_in<'v>(
    given: &Given,
    key: &str,
    index: usize,
    value: &'v Value,
    wanted: &str,
) -> Result<&'v str, BoardError> {
    match value {
        Value::String(text) => Ok(text.as_str()),
        _ => Err(given.fault(key, Some(index), wanted)),
    }
}

fn read_ports(given: &Given, names: Names, ports: &mut Vec<BoardPort>) -> Result<(), BoardError> {
    let values = given.list("ports", 32, "a list of at most 32 ports")?;
    for (index, value) in values.iter().enumerate() {
        ports.push(read_one_port(given, names, index, value)?)?;
    }
    Ok(())
}

fn read_one_port(
    given: &Given,
    names: Names,
    index: usize,
    value: &Value,
) -> Result<BoardPort, BoardError> {
    let text = text_in(given, "ports", index, value, A_PORT)?;
    match read_port(text, names.buses) {
        Some((bus, address)) => {
            let port = PortText {
                index,
                text,
                address,
            };
            Ok(BoardPort {
                bus,
                address: wire_address(given, port, form_of(names, bus))?,
            })
        }
        None => Err(port_fault(given, names, index, text)),
    }
}

/// How the addresses of the ports on a bus are written.
fn form_of(names: Names, bus: usize) -> AddressForm {
    match names.forms.get(bus) {
        Some(form) => *form,
        None => AddressForm::Plain,
    }
}

/// That a text is no port, with that of the nearest bus, if one is near.
fn port_fault(given: &Given, names: Names, index: usize, text: &str) -> BoardError {
    let (bus, address) = text.split_once(' ').unwrap_or((text, ""));
    match near_port(given, names, bus, address) {
        Ok(wanted) => given.fault("ports", Some(index), &wanted),
        // no memory: the text of what is wanted could not grow.
        Err(_) => BoardError::OutOfMemory,
    }
}

fn near_port(given: &Given, names: Names, bus: &str, address: &str) -> Result<String, AllocError> {
    match nearest_of(given.alloc, bus, names.buses)? {
        Some(near) if near != bus => {
            let address = shown_key(given.alloc, address)?;
            format!(in given.alloc;
                "a bus and an address in lower-case hex, as \"{near} {address}\","
            )
        }
        _ => A_PORT.to_string(given.alloc),
    }
}

fn read_reaches(given: &Given, names: Names) -> Result<Option<Vec<usize>>, BoardError> {
    if given.value("reaches").is_none() {
        return Ok(None);
    }
    let values = given.list("reaches", MOST, "a list of at most 64 names")?;
    let mut nodes = Vec::new(given.alloc);
    for (index, value) in values.iter().enumerate() {
        nodes.push(read_one_node(given, names, index, value)?)?;
    }
    Ok(Some(nodes))
}

fn read_one_node(
    given: &Given,
    names: Names,
    index: usize,
    value: &Value,
) -> Result<usize, BoardError> {
    let name = text_in(given, "reaches", index, value, A_NODE)?;
    match index_of(names.nodes, name) {
        Some(node) => Ok(node),
        None => Err(given.fault_near("reaches", Some(index), A_NODE, name, names.nodes)),
    }
}

fn read_rows(given: &Given, names: Names, rows: &mut Vec<BoardRow>) -> Result<(), BoardError> {
    let values = given.list("rows", 256, "a list of at most 256 rows")?;
    for (index, value) in values.iter().enumerate() {
        rows.push(read_one_row(given, names, index, value)?)?;
    }
    Ok(())
}

fn read_one_row(
    given: &Given,
    names: Names,
    index: usize,
    value: &Value,
) -> Result<BoardRow, BoardError> {
    let text = text_in(given, "rows", index, value, A_ROW)?;
    match read_row(text, names.nodes) {
        Some(row) => Ok(row),
        None => Err(row_fault(given, names, index, text)),
    }
}

/// That a text is no row, with that by the nearest node, if one is near.
fn row_fault(given: &Given, names: Names, index: usize, text: &str) -> BoardError {
    match near_row(given, names, text) {
        Ok(wanted) => given.fault("rows", Some(index), &wanted),
        // no memory: the text of what is wanted could not grow.
        Err(_) => BoardError::OutOfMemory,
    }
}

fn near_row(given: &Given, names: Names, text: &str) -> Result<String, AllocError> {
    let (eids, rest) = text.split_once(" via ").unwrap_or(("", ""));
    let (node, port) = rest.split_once(" port ").unwrap_or(("", ""));
    match nearest_of(given.alloc, node, names.nodes)? {
        Some(near) if near != node => {
            let eids = shown_key(given.alloc, eids)?;
            let port = shown_key(given.alloc, port)?;
            format!(in given.alloc;
                "endpoint IDs, a node and a port from 0 to 31, as \"{eids} via {near} port {port}\","
            )
        }
        _ => A_ROW.to_string(given.alloc),
    }
}
