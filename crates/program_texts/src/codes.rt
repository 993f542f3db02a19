//! What each code means. `tools/made` writes this file from docs/REFUSALS.md.

/// What is said of a code, if it is one. Its letter may be a small one.
pub fn text_of(code: &str) -> Option<&'static str> {
    let &[letter, tens, units] = code.as_bytes() else {
        return None;
    };
    let bytes = [letter.to_ascii_uppercase(), tens, units];
    let code = str::from_utf8(&bytes).ok()?;
    match bytes[0] {
        b'A' => of_a(code),
        b'B' => of_b(code),
        b'C' => of_c(code),
        b'D' => of_d(code),
        b'E' => of_e(code),
        b'G' => of_g(code),
        b'H' => of_h(code),
        b'J' => of_j(code),
        b'K' => of_k(code),
        b'L' => of_l(code),
        b'M' => of_m(code),
        b'N' => of_n(code),
        b'P' => of_p(code),
        _ => None,
    }
}

fn of_a(code: &str) -> Option<&'static str> {
    match code {
        "A01" => Some(
            "A01: no SOM, and no message of the packet's key is open.\nHint: the start of the message was lost, dropped or refused; the sender begins again.\nLeaves: all as it was.\n",
        ),
        "A02" => Some(
            "A02: no SOM, and the number is not one more, modulo 4, than that of the key's last packet.\nHint: a packet was lost, repeated or came out of order; the sender begins again.\nLeaves: the key is closed.\n",
        ),
        "A03" => Some(
            "A03: no SOM, and the payload of a middle packet is not as long as the first one's, or that of the\nlast packet is longer.\nHint: the sender cuts its messages unevenly.\nLeaves: the key is closed.\n",
        ),
        "A04" => Some(
            "A04: the message so far is longer than the assembler's limit.\nHint: the message is too long for this endpoint.\nLeaves: the key is closed.\n",
        ),
        "A05" => Some(
            "A05: SOM without EOM, and all slots are open with messages of other keys.\nHint: expire messages that will not come to an end, or make an assembler of more slots.\nLeaves: the packet's key is closed, the others stay.\n",
        ),
        _ => None,
    }
}

fn of_b(code: &str) -> Option<&'static str> {
    match code {
        "B01" => Some(
            "B01: the row has size 0.\nHint: take the row out.\nLeaves: no table is made.\n",
        ),
        "B02" => Some(
            "B02: the row begins below 8 or reaches past 254.\nHint: endpoint IDs from 8 to 254 can be held.\nLeaves: no table is made.\n",
        ),
        "B03" => Some(
            "B03: the row shares an endpoint ID with an earlier row; the first such row is named.\nHint: split or shorten one of the two.\nLeaves: no table is made.\n",
        ),
        "B10" => Some(
            "B10: the destination is not held here and not one of 8 to 254.\nHint: null, reserved and broadcast destinations are not forwarded.\n",
        ),
        "B11" => Some(
            "B11: the node has no row for the destination.\nHint: add a row, or look for the sender's mistake.\n",
        ),
        "B12" => Some(
            "B12: the node is no bridge, and the packet has made a hop.\nHint: a row of another node leads to an endpoint that does not hold the destination.\n",
        ),
        _ => None,
    }
}

fn of_c(code: &str) -> Option<&'static str> {
    match code {
        "C01" => Some(
            "C01: two nodes have one name.\nRule: no earlier node has the node's name.\nOtherwise: texts call nodes by their names, and a name means the first node that has it: no row,\nowner or certificate can speak of the other.\nHint: rename one of them.\n",
        ),
        "C02" => Some(
            "C02: a node holds an endpoint ID that can't be assigned.\nRule: the node's endpoint ID is one of 8 to 254.\nReported with the node's endpoint ID.\nOtherwise: 0 to 7 and 255 cannot be assigned, and packets for them are not forwarded (B10).\nHint: give the node an endpoint ID that can be held.\n",
        ),
        "C03" => Some(
            "C03: two nodes hold one endpoint ID.\nRule: no earlier node holds the node's endpoint ID.\nReported with the node's endpoint ID.\nOtherwise: a packet enters the one holder or the other, by the way that it takes.\nHint: give each node its own.\n",
        ),
        "C04" => Some(
            "C04: a row covers no endpoint ID, or one outside 8 to 254.\nRule: the row covers an endpoint ID, and only such as lie in 8 to 254.\nReported with the row.\nOtherwise: no routing table can be made of it (B01, B02).\nHint: correct first and size.\n",
        ),
        "C05" => Some(
            "C05: two rows of a node cover one endpoint ID.\nRule: the row covers no endpoint ID that an earlier row of the node covers.\nReported with the row.\nOtherwise: one endpoint ID can have two ways on; no routing table can be made of the rows (B03).\nHint: make the node's rows disjoint.\n",
        ),
        "C06" => Some(
            "C06: a row can't reach its next node by its port, or leads several endpoint IDs to an endpoint.\nRule: the row's port exists; its next node is another node, with a port on that port's bus; where\nthe row covers several endpoint IDs, the next node is a bridge.\nReported with the row.\nOtherwise: packets are sent where the next node doesn't hear them; or those for all but one of the\nendpoint IDs end at an endpoint (B12).\nHint: compare port and next with the ports of both nodes.\n",
        ),
        "C07" => Some(
            "C07: a node's owner is no bridge on one of its buses, or its level isn't lower.\nRule: the node's owner, if it has one, is a bridge with a port on a bus of the node, and of a lower\nlevel by the certificate (a level that is not given is 0; a node without an owner has level 0).\nOtherwise: the owner hands out endpoint IDs over a bus that both are on: from another node the node\ngets none. Where owners go round in a circle, no levels will do, and none of them gets the endpoint\nID that it is to hand on from.\nHint: name a bridge on one of the node's buses as owner. Where owner and bus are right, correct the\nlevels: one more than the owner's will do. Where owners go round, give one of them another owner, or\nnone.\n",
        ),
        "C08" => Some(
            "C08: a node's endpoint ID lies outside its owner's pool, or in a pool that is handed on.\nRule: the endpoint ID of an owned node lies in its owner's pool; and a node's endpoint ID lies in no\npool of a bridge with the same owner, the node's own pool included (where nobody owns the node, of a\nbridge that nobody owns).\nReported with the node's endpoint ID.\nOtherwise: the owner cannot assign it, or two bridges can, and one endpoint ID comes to stand for\ntwo nodes.\nHint: take an endpoint ID of the owner's pool that is in no pool handed on from it; where the owner\nhas no pool, give it one.\n",
        ),
        "C09" => Some(
            "C09: a node has a pool that it can't have: an endpoint's, one outside its owner's, or one that meets\nanother.\nRule: a node with a pool is a bridge; the pool has an endpoint ID, and only such as lie in 8 to 254\nand, where the node has an owner, in the owner's pool; it shares none with the pool of an earlier\nnode of the same owner (where nobody owns the node, of an earlier node that nobody owns).\nOtherwise: an endpoint hands out nothing; what lies outside the owner's pool isn't the owner's to\nhand on; of two pools that overlap both bridges hand out the same endpoint ID.\nHint: write null for an endpoint. Cut the owner's pool into pools that lie apart, and leave the\nnodes' own endpoint IDs out of them.\n",
        ),
        "C10" => Some(
            "C10: along a row the certified rank doesn't fall, so packets may go round.\nRule: for each endpoint ID that the row covers and the node does not hold, the certified rank of the\nrow's next node is less than the node's.\nReported with the row and the first such endpoint ID.\nOtherwise: packets to this endpoint ID can go round, and nothing in their header stops them; a rank\nthat the certificate doesn't give is 0.\nHint: the ranks are wrong, or rows lead in a circle: follow them from the node. mctpplan certify\ngives the ranks, or the loop.\n",
        ),
        "C11" => Some(
            "C11: a row leads an endpoint ID to a node that has no way on to it.\nRule: for each endpoint ID that the row covers and another node holds, the row's next node holds it\ntoo, or is a bridge with a row for it.\nReported with the row and the first such endpoint ID of the row.\nOtherwise: packets to that node are dropped on their way (B11 at a bridge without a row, B12 at an\nendpoint).\nHint: give the next node a row for the endpoint ID, or lead the row elsewhere.\n",
        ),
        "C12" => Some(
            "C12: a terminus has no record, or a record has handle 0 or another one's.\nRule: a terminus has a record (reported without an entry); each record's handle is not 0 and no\nearlier record's of the list.\nReported with no entry, or the record.\nOtherwise: a terminus without records has nothing that could be asked for. Handle 0 asks for the\nfirst record and, in an answer, says that no record follows, so a record of that handle is never\nnamed; of two records of one handle only one can be asked for.\nHint: leave the terminus out (null), or give it a record. Give each record a handle of its own from\n1 on, and change the next handles with it.\n",
        ),
        "C13" => Some(
            "C13: a record's bytes are no record, or have another handle.\nRule: the record's bytes are those of a record, all of them, and their header has the record's\nhandle.\nReported with the record.\nOtherwise: who asks for the record gets bytes that cannot be read as one (D01 to D06), or another\nrecord than the one asked for (G07).\nHint: mctpplan show record HEX prints what the bytes are, or why they are none; the handle stands in\nbytes 0 to 3, the lowest byte first.\n",
        ),
        "C14" => Some(
            "C14: the places of the records don't follow their next handles.\nRule: the certificate gives the record a place below the number of records, which no earlier record\nof the list has; the record's next handle is that of a record at the following place or, at the last\nplace, 0.\nReported with the record.\nOtherwise: a terminus answers its records in the order of their places. Where the next handles do\nnot lead through all records once, they end too early, name a record that is not there, or go round\n(G08).\nHint: follow the next handles from the record that no other one names and count from 0: that is each\nrecord's place, and the last record's next handle is 0. mctpplan certify gives the places, or what\nis wrong with the chain.\n",
        ),
        "C15" => Some(
            "C15: a terminus locator names an endpoint ID at which its terminus isn't.\nRule: where the record is a terminus locator with validity 1 and locator type 1, its value is one\nbyte long (reported without an endpoint ID), and a node holds that endpoint ID whose terminus has\nthe locator's terminus ID.\nReported with the record and no endpoint ID, or the locator's.\nOtherwise: who reads the record looks for the terminus where there is none, or another one.\nHint: an MCTP endpoint ID is one byte: correct the record's size and value. Or correct the record's\nvalue or terminus ID, or the node's eid or tid.\n",
        ),
        "C16" => Some(
            "C16: the certificate gives what the plan has no use for.\nRule: the certificate gives no level to a node without an owner, and no node more places than its\nterminus has records (none where it has no terminus); a rank for an endpoint ID only to a node that\ndoes not hold it and has a row for it (reported with the endpoint ID).\nReported with no endpoint ID, or the least such one.\nOtherwise: nothing: a certificate is to give only what the plan has a use for. What is for such an\nendpoint ID ends at the node, so its rank there is 0.\nHint: take them out of the certificate.\n",
        ),
        _ => None,
    }
}

fn of_d(code: &str) -> Option<&'static str> {
    match code {
        "D01" => Some(
            "D01: fewer than 10 bytes: no common header.\nHint: give the whole record, from its first header byte.\n",
        ),
        "D02" => Some(
            "D02: the header version (byte 4) is not 1.\nHint: the bytes are of another header version, or do not begin at the header.\n",
        ),
        "D03" => Some(
            "D03: the data length (bytes 8 and 9) is not the number of bytes behind the header.\nHint: bytes were cut off or added, or the length was written for another body.\n",
        ),
        "D04" => Some(
            "D04: the bytes end before the last field of the type's layout does.\nHint: compare counts, sizes and codes with the bytes: a size may be too large.\n",
        ),
        "D05" => Some(
            "D05: bytes follow the last field of the type's layout.\nHint: compare counts, sizes and codes with the bytes: a size may be too small.\n",
        ),
        "D06" => Some(
            "D06: body byte 22 of a numeric sensor is over 5, or its range field format over 6; tested where the\nfield is met, so before D04 for a later field.\nHint: 64-bit and other sizes are not supported.\n",
        ),
        _ => None,
    }
}

fn of_e(code: &str) -> Option<&'static str> {
    match code {
        "E01" => Some(
            "E01: the bytes are no success answer of Get Routing Table Entries (they do not read as a response,\nare of another command or have another completion code), whatever their instance ID.\nHint: the bridge lies, or has no such command.\nLeaves: the reader has failed; its entries stay.\n",
        ),
        "E02" => Some(
            "E02: no request waits, or the answer has another instance ID.\nHint: the answer is late or not meant for this reader; wait, or ask again.\n",
        ),
        "E03" => Some(
            "E03: no entry, although the next handle is not 255.\nHint: the bridge would be asked for ever.\nLeaves: the reader has failed; its entries stay.\n",
        ),
        "E04" => Some(
            "E04: with these entries there would be more than 247.\nHint: the bridge tells more entries than there are endpoint IDs.\nLeaves: the reader has failed; its entries stay.\n",
        ),
        "E05" => Some(
            "E05: an earlier answer was refused with E01, E03 or E04.\nHint: make a new reader.\n",
        ),
        _ => None,
    }
}

fn of_g(code: &str) -> Option<&'static str> {
    match code {
        "G01" => Some(
            "G01: any other completion code but 00.\nHint: the terminus refused: its code says why.\n",
        ),
        "G02" => Some(
            "G02: the first four bytes are no header of a PLDM message; or, behind G03, the bytes are no answer\nto a GetPDR request.\nHint: the peer is at fault, or the bytes are of another protocol.\n",
        ),
        "G03" => Some(
            "G03: no request is outstanding; or, behind G02 of the header, the answer has another instance ID.\nHint: an old or repeated answer: drop it.\n",
        ),
        "G04" => Some(
            "G04: a first part with a flag other than 0 and 5, a next part with one other than 1 and 4, or a flag\n0 or 1 with next transfer handle 0.\nHint: the peer is at fault.\n",
        ),
        "G05" => Some(
            "G05: the check byte is not that of the whole record.\nHint: parts of two records, or a changed byte: begin a new walk.\n",
        ),
        "G06" => Some(
            "G06: an empty part, one longer than asked for, a start of fewer than 8 bytes, or a last part after\nwhich the record has not 10 bytes more than its data length.\nHint: the peer is at fault.\n",
        ),
        "G07" => Some(
            "G07: the record's handle is 0, or not the one that was asked for by number.\nHint: the peer is at fault.\n",
        ),
        "G08" => Some(
            "G08: a record of that handle was collected before.\nHint: the terminus's records go in a circle.\n",
        ),
        "G09" => Some(
            "G09: one record more than may be collected, or more bytes than may be collected.\nHint: make a walker with wider limits.\n",
        ),
        "G10" => Some(
            "G10: completion code 83.\nHint: the record has changed during the walk: begin a new one.\n",
        ),
        "G11" => Some(
            "G11: the walker had failed before.\nHint: look at the fault that it failed with; begin a new walk.\n",
        ),
        _ => None,
    }
}

fn of_h(code: &str) -> Option<&'static str> {
    match code {
        "H01" => Some(
            "H01: two ports on one bus have the same address, which is not empty. A finding names both ports; of\nthree such ports there are three findings.\nCause: one address was given twice, or a port stands on the wrong bus.\nHint: give one of them its own address.\n",
        ),
        "H02" => Some(
            "H02: a port has an empty address, and a port on its bus has one.\nCause: the address was left out.\nHint: write the port's physical address on that bus.\n",
        ),
        "H03" => Some(
            "H03: two termini have the same terminus ID, which is not 0 (0 is none).\nCause: a terminus was copied.\nHint: give one of them its own terminus ID, and its locators too.\n",
        ),
        "H04" => Some(
            "H04: a terminus has no record that is a valid locator of its own terminus ID and its node's endpoint\nID.\nCause: the locator was left out, is not valid, or names another terminus ID or endpoint ID.\nHint: give its repository a valid terminus locator (type 1) of both.\n",
        ),
        "H05" => Some(
            "H05: a record reads as a numeric or state sensor, and an earlier record of its terminus reads as one\nwith the same sensor ID.\nCause: a sensor's record was copied.\nHint: give one of the two sensors its own sensor ID.\n",
        ),
        "H06" => Some(
            "H06: a node has a topmost owner (its owner, or that one's owner, and so on, which nobody owns), and\nwhat that one sends for the node's endpoint ID does not come to the node along the rows. Of two rows\nof a node for one endpoint ID the first one counts, and the way ends at the first node that holds\nthe endpoint ID.\nCause: the topmost owner, or a node on the way, has no row for the endpoint ID, or a row that leads\nelsewhere.\nHint: give each of them a row for the endpoint ID, toward the node.\n",
        ),
        "H07" => Some(
            "H07: a node has a topmost owner, and what it sends for that one's endpoint ID does not come there\nalong the rows. Rows count as in H06.\nCause: the node, or one on the way, has no row for the owner's endpoint ID, or a row that leads\nelsewhere.\nHint: give each of them a row for the endpoint ID, toward the owner.\n",
        ),
        "H08" => Some(
            "H08: a row has no endpoint ID that a node holds or that lies in a pool.\nCause: the row is left over, or its endpoint IDs are mistyped.\nHint: drop the row, or write the endpoint IDs of those behind it.\n",
        ),
        "H09" => Some(
            "H09: an endpoint ID of a bridge's pool is held by another node, and the bridge has no row for it.\nCause: a node was put behind the bridge without a row for it.\nHint: give the bridge a row for the endpoint ID.\n",
        ),
        "H10" => Some(
            "H10: a port is the only one on its bus.\nCause: the node that it should meet stands on another bus, or is missing.\nHint: put the other node's port on the bus, or drop this one.\n",
        ),
        "H11" => Some(
            "H11: a record reads as a numeric sensor whose minReadable is over its maxReadable, both as numbers\nof its data size, signed or not.\nCause: the two were swapped, or written for another data size.\nHint: write the lower limit as minReadable, or the data size that the two were meant for.\n",
        ),
        "H12" => Some(
            "H12: a node has no rows, and no node has a row for its endpoint ID.\nCause: the node was put into the plan and never routed.\nHint: give the node rows, and those that it should hear from rows for it.\n",
        ),
        "H13" => Some(
            "H13: a bus has media of another binding than its own: media 1 to 6 are of binding 1 (SMBus and I2C),\n8 to 13 of 2 (PCIe), 16 to 18 of 3 (USB), 32 and 33 of 4 (KCS), 34 to 36 of 5 (serial). Of other\nnumbers nothing is said.\nCause: one of the two numbers is mistyped, or was written in hex.\nHint: write both as DSP0239 has them, in decimal digits.\n",
        ),
        "H14" => Some(
            "H14: a bus has the binding 0, which is reserved.\nCause: the binding was left out.\nHint: write the physical transport binding identifier (DSP0239): 1 is SMBus and I2C.\n",
        ),
        "H15" => Some(
            "H15: the address of a port is one byte, whose bits 7 to 1 are reserved on its bus: on SMBus and I2C\n(binding 1) 0x00 to 0x07 and 0x78 to 0x7F; on I3C (binding 6) 0x00 to 0x07, the broadcast address\n0x7E, and what differs from that in one bit.\nCause: the address was written in seven bits.\nHint: write twice the seven bits: 0x10 is 20.\n",
        ),
        "H16" => Some(
            "H16: no node has a port on a bus.\nCause: the bus is left over, or ports stand on another.\nHint: drop the bus, or put the ports on it.\n",
        ),
        "H17" => Some(
            "H17: a record reads as a numeric sensor, of whose thresholds a lower one is over a higher one. From\nthe lowest they are fatalLow, criticalLow, warningLow, warningHigh, criticalHigh and fatalHigh;\nthose count that supportedThresholds has, and of critical and fatal ones those that\nrangeFieldSupport has too. Real numbers are not compared.\nCause: two were swapped, or written for another range field format.\nHint: write them in ascending order, or clear the bits of those that the sensor doesn't have.\n",
        ),
        "H18" => Some(
            "H18: a record reads as a numeric or state sensor, and no record of its terminus reads as a terminus\nlocator with its terminus handle.\nCause: the handle is mistyped, or its locator was left out.\nHint: write the handle of a locator, or give the repository a locator (type 1) with the handle.\n",
        ),
        "H19" => Some(
            "H19: a record reads as a numeric or state sensor, the container ID of its entity is not 0 (the\nsystem), and no record of its terminus reads as an entity association that lists the entity among\nthose contained, by type, instance number and container ID.\nCause: the association was left out, or one of the three numbers is mistyped.\nHint: give the repository an association (type 15) that lists the entity, or the sensor an entity\nthat one lists.\n",
        ),
        "H20" => Some(
            "H20: the address of a port is one byte, whose bit 0 is set, on SMBus and I2C (binding 1) or on I3C\n(binding 6). Addresses stand in bits 7 to 1 there.\nCause: the address was written in seven bits, or with the bit for reading.\nHint: write twice the seven bits: 0x1D is 3a.\n",
        ),
        "H21" => Some(
            "H21: the address of a port isn't empty, and has a length that addresses on its bus don't have. They\nhave one byte on SMBus and I2C (binding 1), two on PCIe (2), one or six on I3C (6). Of other\nbindings nothing is said.\nCause: the port stands on another bus, or a byte was left out.\nHint: write the address as FORMATS.md says of the binding, or the port's own bus.\n",
        ),
        "H22" => Some(
            "H22: the plan's transmission unit is over 250, and a bus is SMBus or I2C (binding 1). The byte count\nof its packets, 255 at most, counts the source's address and four bytes of header too (DSP0237).\nCause: the unit was written for another bus.\nHint: write a unit of at most 250, or the binding that the bus has.\n",
        ),
        "H23" => Some(
            "H23: two ports on one bus have addresses of one byte that differ in bit 0 alone, on SMBus and I2C\n(binding 1) or on I3C (binding 6), where bit 0 is no part of an address. H20 tells the odd one too.\nCause: one device was written twice, or two addresses of seven bits were not doubled.\nHint: give each port its own seven bits, and write twice these.\n",
        ),
        _ => None,
    }
}

fn of_j(code: &str) -> Option<&'static str> {
    match code {
        "J01" => Some(
            "J01: the text is no JSON, or no UTF-8, or has a number that no 64-bit float reaches, or more than\n127 lists and objects stand open at one place.\nHint: look for a missing brace or comma: an empty file is no JSON either.\n",
        ),
        "J02" => Some(
            "J02: a value is of another kind than belongs there, as a list in place of an object.\nHint: compare the text with docs/FORMATS.md.\n",
        ),
        "J03" => Some(
            "J03: an object lacks a key.\nHint: every key is required; write null for an owner, pool or terminus that is not there.\n",
        ),
        "J04" => Some(
            "J04: an object has a key that does not belong to it.\nHint: look for a misspelled key.\n",
        ),
        "J05" => Some(
            "J05: a number is out of its range, or has a fraction, an exponent or a sign; a name is not well\nformed; a word is none of those listed.\nHint: compare the value with its bounds.\n",
        ),
        "J06" => Some(
            "J06: a name is that of no bus (for a port), or of no node.\nHint: look for a misspelled name. A certificate and events are read for a plan: perhaps they are\nanother plan's, or a node was renamed since.\n",
        ),
        "J07" => Some("J07: a text is no hex.\nHint: hex has an even number of digits.\n"),
        "J08" => Some(
            "J08: the text is longer than 16,777,216 bytes; or a list is longer than its bound (64 buses, 64\nnodes, 32 ports, 256 rows, 4,096 records, 100,000 events); or an address has over 8 bytes.\nHint: split the network or the run into several.\nLeaves: too long a text: the source stands behind what was read; else it is at its end.\n",
        ),
        "J09" => Some(
            "J09: a key stands twice in one object; two buses have one name; a list of a certificate has two\nentries of one node; a node's ranges overlap or do not ascend.\nHint: give each its own; sort the ranges.\n",
        ),
        _ => None,
    }
}

fn of_k(code: &str) -> Option<&'static str> {
    match code {
        "K01" => Some(
            "K01: too short: a request has at least 3 bytes, a response 4, an entry 6.\nHint: give the whole body, from its message type byte.\n",
        ),
        "K02" => Some(
            "K02: byte 0 is not 0x00, or the Rq bit is clear in a request or set in a response.\nHint: it is no control message, or one of the other direction.\n",
        ),
        "K03" => Some(
            "K03: not the length that the command and the completion code ask for; entries that are not exactly\nas many as announced, or end in the middle of one; more than 64 bytes; an entry whose length is not\n6 and its address size, or with an address over 52 bytes.\nHint: look for bytes that were cut off or added behind the message.\n",
        ),
        "K04" => Some(
            "K04: the command is not 0x01, 0x02, 0x08 or 0x0A.\nHint: the command is not supported here; a device answers it with completion code 0x05.\n",
        ),
        _ => None,
    }
}

fn of_l(code: &str) -> Option<&'static str> {
    match code {
        "L01" => Some(
            "L01: fewer than 4 bytes: no header.\nHint: give the whole message, its message type byte included.\n",
        ),
        "L02" => Some(
            "L02: byte 0 is not 01.\nHint: the message is not PLDM's: look at the message type before reading it.\n",
        ),
        "L03" => Some(
            "L03: the header version, bits 7 and 6 of byte 2, is not 0.\nHint: the sender follows another version of the standard.\n",
        ),
        "L04" => Some(
            "L04: more or fewer bytes than the message has; of an answer also no completion code, or bytes behind\na code other than 0. Of a PldmHeader more than 4 bytes.\nHint: a terminus answers completion code 03; a requester drops the answer.\n",
        ),
        "L05" => Some(
            "L05: Rq is 0 and D is 1.\nHint: the pair is reserved: the sender is at fault.\n",
        ),
        "L06" => Some(
            "L06: another PLDM type or command than the type that is read, or a response in place of a request or\nthe other way round; a request takes either D. Not answered of a PldmHeader.\nHint: read the header first (PldmHeader::front) and then the message that it names.\n",
        ),
        _ => None,
    }
}

fn of_m(code: &str) -> Option<&'static str> {
    match code {
        "M01" => Some(
            "rule M01: both plans have the same transmission unit, the same buses (name, binding, media type) in\nthe same order, and as many nodes.\nOtherwise: the two are plans of different networks.\nHint: plan the change of hardware as a network of its own.\n\nrule M01: the node is the same in both but for its rows: name, kind, endpoint ID, ports, owner,\npool, terminus and records.\nOtherwise: a packet can be on its way to a node that is no longer what it was.\nHint: change rows alone.\n\nrule M01: as above, where they are there whatever the certificate: M01, the rules of the old plan\nthat certify tells, C04 to C06 and C11 of the new plan's rows, and M02.\n",
        ),
        "M02" => Some(
            "rule M02: where a row of the old (the new) plan sends an endpoint ID that another node holds to a\nnext node, that one holds it, or is a bridge that has a row for it in both plans.\nOtherwise: while some nodes have switched and some haven't, a packet comes to a node that has no row\nfor it (B11).\nHint: let the next node keep a row for it in both plans: move in two steps.\n",
        ),
        "M03" => Some(
            "rule M03: C16, where a rank needs a row in the old plan or in the new one.\nOtherwise: the certificate gives something that neither plan needs.\nHint: take it out.\n",
        ),
        _ => None,
    }
}

fn of_n(code: &str) -> Option<&'static str> {
    match code {
        "N01" => Some(
            "N01 (all that name a node): there is no such node.\nHint: a text can't name one; look at the place in events made in code.\n",
        ),
        "N02" => Some(
            "N02 (put): the bytes are no packet of the plan's transmission unit (P01 to P04).\nHint: see what show packet says of them. It reads by the unit of 64: P03 is no fault where the plan\nhas a larger unit.\n",
        ),
        "N03" => Some(
            "N03 (move, lose): there is no such flight: the number was never given, or the flight has ended.\nHint: follow the numbers in the outcomes before.\n",
        ),
        "N04" => Some(
            "N04 (answer): the node has no terminus.\nHint: name the node of the terminus.\n",
        ),
        "N05" => Some(
            "N05 (answer): no message waits there.\nHint: move a request to the node first.\n",
        ),
        "N06" => Some(
            "N06 (put, move with keep, answer, ask): fewer flight numbers are left than the event can need: 64\nfor an answer, else 1.\nHint: a text has too few events for it; in events made in code begin another run.\n",
        ),
        "N07" => Some(
            "N07 (switch): the network has one plan, or the node has switched before.\nHint: play a move by simmove; a node switches once.\n",
        ),
        "N08" => Some(
            "N08 (walk): a walker of this node, endpoint ID and tag exists, also one that is done or has failed.\nHint: take another tag.\n",
        ),
        "N09" => Some(
            "N09 (walk): no node with a terminus holds the endpoint ID.\nHint: name the endpoint ID of a node that has a terminus.\n",
        ),
        "N10" => Some(
            "N10 (walk): the count is below 8, or so large that the answer with so many bytes could take more\nthan five packets of the plan's transmission unit. At the baseline unit of 64 bytes that is over\n303, at 1024 over 4079.\nHint: take a count of 8 to 303, which each plan allows.\n",
        ),
        "N11" => Some(
            "N11 (ask, collected): there is no such walker.\nHint: walkers are numbered from 1, in the order in which they began.\n",
        ),
        "N12" => Some(
            "N12 (ask): nothing is outstanding, and a key of the walker isn't settled: a packet is on its way, a\nmessage is open, or one waits at the terminus.\nHint: move, lose, expire or answer what is left of the last exchange, and ask again.\n",
        ),
        "N13" => Some(
            "N13 (ask): the walk is done or has failed.\nHint: see collected; begin another walk under another tag.\n",
        ),
        _ => None,
    }
}

fn of_p(code: &str) -> Option<&'static str> {
    match code {
        "P01" => Some(
            "P01: fewer than 4 bytes: no header.\nHint: give the whole packet, from its first header byte.\n",
        ),
        "P02" => Some(
            "P02: exactly 4 bytes: no payload.\nHint: a packet has at least one payload byte.\n",
        ),
        "P03" => Some(
            "P03: more than 64 payload bytes; where a plan is given, more than its transmission unit.\nHint: cut the message into packets of at most so many payload bytes; look for bytes of the medium's\nown framing or check code behind the packet.\n",
        ),
        "P04" => Some(
            "P04: bits 3 to 0 of the first byte are not 1.\nHint: the bytes are of another header version, or do not begin at the header.\n",
        ),
        _ => None,
    }
}
