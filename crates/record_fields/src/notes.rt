//! The standard's words for numbers of a record: DSP0248 for its own fields, DSP0249 for entities and state sets.
use crate::held::{Held, NamedField};
use std::alloc::{AllocError, Global};
use std::num::f32_from_bits_with_nan;

/// The word for what a field holds, or nothing.
pub fn note_of(alloc: Global, field: &NamedField) -> Result<String, AllocError> {
    match field.held {
        Held::Number(number) => word_of(field.name, number).to_string(alloc),
        Held::Sized { code: 6, bits } => real_text(alloc, bits),
        Held::Entity(entity) => entity_word(u64::from(entity.entity_type)).to_string(alloc),
        Held::StateSet(set) => state_set_word(u64::from(set.state_set_id)).to_string(alloc),
        Held::Sized { .. } | Held::Bytes(_) => Ok(String::new(alloc)),
    }
}

/// The real number of 32 bits.
fn real_text(alloc: Global, bits: u64) -> Result<String, AllocError> {
    match u32::try_from(bits) {
        Ok(bits) => {
            let number = f32_from_bits_with_nan(bits);
            format!(in alloc; "{number}")
        }
        Err(_) => Ok(String::new(alloc)),
    }
}

/// The word for the number of a field of this name.
fn word_of(name: &str, number: u64) -> &'static str {
    match name {
        "type" => type_word(number),
        "validity" => validity_word(number),
        "locator-type" => locator_word(number),
        "entity-type" => entity_word(number),
        "sensor-init" => init_word(number),
        "base-unit" | "aux-unit" => unit_word(number),
        "rate-unit" | "aux-rate-unit" => rate_word(number),
        "rel" => rel_word(number),
        "data-size" | "range-format" => size_word(number),
        "association-type" => association_word(number),
        _ => "",
    }
}

/// A record's type (DSP0248, PDR types).
fn type_word(number: u64) -> &'static str {
    match number {
        1 => "terminus locator",
        2 => "numeric sensor",
        3 => "numeric sensor initialization",
        4 => "state sensor",
        5 => "state sensor initialization",
        6 => "sensor auxiliary names",
        7 => "OEM unit",
        8 => "OEM state set",
        9 => "numeric effecter",
        10 => "numeric effecter initialization",
        11 => "state effecter",
        12 => "state effecter initialization",
        13 => "effecter auxiliary names",
        14 => "effecter OEM semantic",
        15 => "entity association",
        16 => "entity auxiliary names",
        17 => "OEM entity ID",
        18 => "interrupt association",
        19 => "PLDM event log",
        20 => "FRU record set",
        126 => "OEM device",
        127 => "OEM",
        _ => "",
    }
}

/// Whether a terminus locator is valid (DSP0248).
fn validity_word(number: u64) -> &'static str {
    match number {
        0 => "not valid",
        1 => "valid",
        _ => "",
    }
}

/// What a terminus locator's value is (DSP0248).
fn locator_word(number: u64) -> &'static str {
    match number {
        0 => "UID",
        1 => "MCTP endpoint ID",
        2 => "SMBus relative",
        3 => "system software",
        _ => "",
    }
}

/// How a sensor is to be initialized (DSP0248).
fn init_word(number: u64) -> &'static str {
    match number {
        0 => "no init",
        1 => "use init PDR",
        2 => "enable sensor",
        3 => "disable sensor",
        _ => "",
    }
}

/// What a sensor measures in (DSP0248, sensorUnits).
fn unit_word(number: u64) -> &'static str {
    match number {
        0 => "none",
        1 => "unspecified",
        2 => "degrees C",
        3 => "degrees F",
        4 => "kelvins",
        5 => "volts",
        6 => "amps",
        7 => "watts",
        8 => "joules",
        9 => "coulombs",
        10 => "VA",
        11 => "nits",
        12 => "lumens",
        13 => "lux",
        14 => "candelas",
        15 => "kPa",
        16 => "PSI",
        17 => "newtons",
        18 => "CFM",
        19 => "RPM",
        20 => "hertz",
        21 => "seconds",
        22 => "minutes",
        23 => "hours",
        24 => "days",
        25 => "weeks",
        26 => "mils",
        27 => "inches",
        28 => "feet",
        29 => "cubic inches",
        30 => "cubic feet",
        31 => "meters",
        32 => "cubic centimeters",
        33 => "cubic meters",
        34 => "liters",
        35 => "fluid ounces",
        36 => "radians",
        37 => "steradians",
        38 => "revolutions",
        39 => "cycles",
        40 => "gravities",
        41 => "ounces",
        42 => "pounds",
        43 => "foot-pounds",
        44 => "ounce-inches",
        45 => "gauss",
        46 => "gilberts",
        47 => "henries",
        48 => "farads",
        49 => "ohms",
        50 => "siemens",
        51 => "moles",
        52 => "becquerels",
        53 => "PPM",
        54 => "decibels",
        55 => "dBA",
        56 => "dBC",
        57 => "grays",
        58 => "sieverts",
        59 => "color temperature in kelvins",
        60 => "bits",
        61 => "bytes",
        62 => "words",
        63 => "double words",
        64 => "quad words",
        65 => "percent",
        66 => "pascals",
        67 => "counts",
        68 => "grams",
        69 => "newton-meters",
        70 => "hits",
        71 => "misses",
        72 => "retries",
        73 => "overruns or overflows",
        74 => "underruns",
        75 => "collisions",
        76 => "packets",
        77 => "messages",
        78 => "characters",
        79 => "errors",
        80 => "corrected errors",
        81 => "uncorrectable errors",
        82 => "square mils",
        83 => "square inches",
        84 => "square feet",
        85 => "square centimeters",
        86 => "square meters",
        255 => "OEM unit",
        _ => "",
    }
}

/// A unit of time (DSP0248, rateUnit).
fn rate_word(number: u64) -> &'static str {
    match number {
        0 => "none",
        1 => "per microsecond",
        2 => "per millisecond",
        3 => "per second",
        4 => "per minute",
        5 => "per hour",
        6 => "per day",
        7 => "per week",
        8 => "per month",
        9 => "per year",
        _ => "",
    }
}

/// How the auxiliary unit belongs to the base unit (DSP0248).
fn rel_word(number: u64) -> &'static str {
    match number {
        0 => "divided by",
        1 => "multiplied by",
        _ => "",
    }
}

/// A data size or a range field format (DSP0248).
fn size_word(number: u64) -> &'static str {
    match number {
        0 => "uint8",
        1 => "sint8",
        2 => "uint16",
        3 => "sint16",
        4 => "uint32",
        5 => "sint32",
        6 => "real32",
        _ => "",
    }
}

/// What an association says (DSP0248).
fn association_word(number: u64) -> &'static str {
    match number {
        0 => "physical to physical containment",
        1 => "logical containment",
        _ => "",
    }
}

/// An entity's type (DSP0249, entity IDs).
fn entity_word(number: u64) -> &'static str {
    match number {
        0 => "unspecified",
        1 => "other",
        2 => "network",
        3 => "group",
        4 => "remote management communication device",
        5 => "external environment",
        6 => "communication channel",
        7 => "PLDM terminus",
        8 => "platform event log",
        15 => "keypad",
        16 => "switch",
        17 => "pushbutton",
        18 => "display",
        19 => "indicator",
        30 => "system management software",
        31 => "system firmware",
        32 => "operating system",
        33 => "virtual machine manager",
        34 => "OS loader",
        35 => "device driver",
        36 => "management controller firmware",
        45 => "system chassis",
        46 => "sub-chassis",
        47 => "disk drive bay",
        48 => "peripheral bay",
        49 => "device bay",
        50 => "door",
        51 => "access panel",
        52 => "cover",
        60 => "board",
        61 => "card",
        62 => "module",
        63 => "system management module",
        64 => "system board",
        65 => "memory board",
        66 => "memory module",
        67 => "processor module",
        68 => "add-in card",
        69 => "chassis front panel board",
        70 => "back panel board",
        71 => "power management board",
        72 => "power system board",
        73 => "drive backplane",
        74 => "system internal expansion board",
        75 => "other system board",
        76 => "chassis back panel board",
        77 => "processing blade",
        78 => "connectivity switch",
        79 => "processor/memory module",
        80 => "I/O module",
        81 => "processor/I/O module",
        90 => "cooling device",
        91 => "cooling subsystem",
        92 => "cooling unit",
        93 => "fan",
        94 => "Peltier cooling device",
        95 => "liquid cooling device",
        96 => "liquid cooling subsystem",
        105 => "other storage device",
        106 => "floppy drive",
        107 => "hard drive",
        108 => "CD drive",
        109 => "CD/DVD drive",
        110 => "other silicon storage device",
        111 => "solid state drive",
        120 => "power supply",
        121 => "battery",
        122 => "super capacitor",
        123 => "power converter",
        124 => "DC-DC converter",
        125 => "AC mains power supply",
        126 => "DC mains power supply",
        135 => "processor",
        136 => "chipset component",
        137 => "management controller",
        138 => "peripheral controller",
        139 => "SEEPROM",
        140 => "NVRAM chip",
        141 => "flash memory chip",
        142 => "memory chip",
        143 => "memory controller",
        144 => "network controller",
        145 => "I/O controller",
        146 => "south bridge",
        147 => "real time clock",
        160 => "other bus",
        161 => "system bus",
        162 => "I2C bus",
        163 => "SMBus bus",
        164 => "SPI bus",
        165 => "PCI bus",
        166 => "PCI Express bus",
        167 => "PECI bus",
        168 => "LPC bus",
        169 => "USB bus",
        170 => "FireWire bus",
        171 => "SCSI bus",
        172 => "SATA/SAS bus",
        173 => "processor/front-side bus",
        174 => "inter-processor bus",
        185 => "connector",
        186 => "slot",
        187 => "cable",
        188 => "interconnect",
        189 => "plug",
        190 => "socket",
        _ => "",
    }
}

/// A state set (DSP0249).
fn state_set_word(number: u64) -> &'static str {
    match number {
        1 => "health state",
        2 => "availability",
        3 => "predictive condition",
        4 => "redundancy status",
        5 => "health or redundancy trend",
        6 => "group resource level",
        7 => "redundancy entity role",
        8 => "operational status",
        9 => "operational stress status",
        10 => "operational fault status",
        11 => "operational running status",
        12 => "operational connection status",
        13 => "presence",
        14 => "performance",
        15 => "configuration state",
        16 => "changed configuration",
        17 => "identify state",
        18 => "version",
        19 => "alarm state",
        20 => "device initialization",
        21 => "thermal trip",
        22 => "heartbeat",
        33 => "link state",
        _ => "",
    }
}
