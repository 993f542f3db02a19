//! The addresses of ports, as a board writes them and as they stand on the wire.
use crate::fault::BoardError;
use crate::given::Given;
use hex::FromHexError;
use net_pointers::shown_key;
use std::alloc::{AllocError, Global};

/// The word that a bus has for addresses of 7 bits.
const SEVEN_BITS: &str = "7-bit";

/// How a board writes the addresses of the ports on a bus.
#[derive(Clone, Copy)]
pub enum AddressForm {
    /// As on the wire.
    Plain,
    /// As on the wire, where an address of one byte is even. The word names the standard.
    Even(&'static str),
    /// In 7 bits, which stand above the lowest bit of the byte on the wire.
    SevenBits,
}

/// How the table of a bus of this binding says that addresses are written.
pub fn read_form(given: &Given, binding: u8) -> Result<AddressForm, BoardError> {
    match (given.text("addresses", "\"7-bit\"")?, wire_form(binding)) {
        (None, form) => Ok(form),
        (Some(SEVEN_BITS), AddressForm::Even(_)) => Ok(AddressForm::SevenBits),
        (Some(SEVEN_BITS), _) => Err(given.fault_told(
            "addresses",
            None,
            no_short_form(given.alloc),
        )),
        (Some(_), _) => Err(given.fault("addresses", None, "\"7-bit\"")),
    }
}

/// What addresses are on the wire of a bus of this binding (DSP0239).
fn wire_form(binding: u8) -> AddressForm {
    match binding {
        1 => AddressForm::Even("SMBus"),
        6 => AddressForm::Even("I3C"),
        _ => AddressForm::Plain,
    }
}

fn no_short_form(alloc: Global) -> Result<String, AllocError> {
    "\"7-bit\" stands at \"addresses\", and the binding of the bus is neither smbus nor i3c".to_string(
        alloc,
    )
}

/// A port as it stands in the list at `ports`: its index there, its text, and its address in hex, which may be empty.
#[derive(Clone, Copy)]
pub struct PortText<'t> {
    pub index: usize,
    pub text: &'t str,
    pub address: &'t str,
}

/// The address of a port on the wire, in hex.
pub fn wire_address(
    given: &Given,
    port: PortText,
    form: AddressForm,
) -> Result<String, BoardError> {
    let byte = byte_of(given.alloc, port.address)?;
    match (form, byte) {
        (AddressForm::SevenBits, _) if port.address.is_empty() => Ok(String::new(given.alloc)),
        (AddressForm::SevenBits, byte) => match shifted(byte) {
            Some(byte) => Ok(hex_of(given.alloc, byte)?),
            None => Err(port_fault(given, port, long_reason(given.alloc, port))),
        },
        (AddressForm::Even(standard), Some(byte)) if byte % 2 == 1 => {
            let reason = odd_reason(given.alloc, port, byte, standard);
            Err(port_fault(given, port, reason))
        }
        _ => Ok(port.address.to_string(given.alloc)?),
    }
}

fn port_fault(given: &Given, port: PortText, reason: Result<String, AllocError>) -> BoardError {
    given.fault_told("ports", Some(port.index), reason)
}

/// The byte that an address is, where it has one alone.
fn byte_of(alloc: Global, address: &str) -> Result<Option<u8>, AllocError> {
    match hex::decode(alloc, address) {
        Ok(bytes) => match bytes.as_slice() {
            [byte] => Ok(Some(*byte)),
            _ => Ok(None),
        },
        Err(FromHexError::OutOfMemory) => Err(AllocError),
        Err(_) => Ok(None),
    }
}

/// The byte on the wire of an address of 7 bits; none where it has more.
fn shifted(address: Option<u8>) -> Option<u8> {
    address?.checked_mul(2)
}

fn hex_of(alloc: Global, byte: u8) -> Result<String, AllocError> {
    hex::encode(alloc, &[byte][..])
}

fn odd_reason(
    alloc: Global,
    port: PortText,
    byte: u8,
    standard: &str,
) -> Result<String, AllocError> {
    let text = shown_key(alloc, port.text)?;
    let address = port.address;
    let odd = format!(in alloc;
        "\"{text}\" has the address {address}, which is odd: an {standard} address on the wire is even"
    )?;
    match shifted(Some(byte)) {
        Some(byte) => {
            let wire = hex_of(alloc, byte)?;
            format!(in alloc;
                "{odd}. As a 7-bit address it is {wire} on the wire (write {wire}, or addresses = \"7-bit\" at the bus)"
            )
        }
        None => Ok(odd),
    }
}

fn long_reason(alloc: Global, port: PortText) -> Result<String, AllocError> {
    let text = shown_key(alloc, port.text)?;
    let address = port.address;
    format!(in alloc;
        "\"{text}\" has the address {address}, and at a bus with addresses = \"7-bit\" one is 00 to 7f"
    )
}
