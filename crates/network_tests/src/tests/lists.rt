//! Lists of events on the riser network, and one on two ways. What comes of each `runs.rows`, `walks.rows` and
//! `switches.rows` tell.

/// A request goes to ssd.
const TO_SSD: &str =
    r#"{"format":3,"events":[{"do":"put","node":"host","bytes":"011208cb01800002"},{"do":"move","flight":1,"keep":false},{"do":"move","flight":1,"keep":false},{"do":"move","flight":1,"keep":false}]}"#;

/// A request goes to nic, and its answer comes back.
const AND_BACK: &str =
    r#"{"format":3,"events":[{"do":"put","node":"host","bytes":"011108cb01800002"},{"do":"move","flight":1,"keep":false},{"do":"move","flight":1,"keep":false},{"do":"move","flight":1,"keep":false},{"do":"answer","node":"nic"},{"do":"move","flight":2,"keep":false},{"do":"move","flight":2,"keep":false},{"do":"move","flight":2,"keep":false}]}"#;

/// A copy of a flight goes on, then the flight itself, which is lost. What isn't there is refused.
const COPIED_AND_LOST: &str =
    r#"{"format":3,"events":[{"do":"put","node":"host","bytes":"011208cb01800002"},{"do":"move","flight":1,"keep":true},{"do":"move","flight":2,"keep":false},{"do":"move","flight":2,"keep":false},{"do":"move","flight":1,"keep":false},{"do":"lose","flight":1},{"do":"move","flight":1,"keep":false},{"do":"answer","node":"ssd"},{"do":"answer","node":"nic"},{"do":"put","node":"host","bytes":"010a08"}]}"#;

/// What ends a flight on its way and at a node, and a request that has no answer.
const ENDS: &str =
    r#"{"format":3,"events":[{"do":"put","node":"host","bytes":"01ff08cb00"},{"do":"move","flight":1,"keep":false},{"do":"put","node":"host","bytes":"011e08cb00"},{"do":"move","flight":2,"keep":false},{"do":"put","node":"host","bytes":"011308cb00"},{"do":"move","flight":3,"keep":false},{"do":"move","flight":3,"keep":false},{"do":"put","node":"ssd","bytes":"0112088b00"},{"do":"move","flight":4,"keep":false},{"do":"expire","node":"ssd","source":8,"tag":3,"owner":1},{"do":"expire","node":"ssd","source":8,"tag":3,"owner":1},{"do":"put","node":"ssd","bytes":"0112085b00"},{"do":"move","flight":5,"keep":false},{"do":"put","node":"nic","bytes":"011108cb01c00002"},{"do":"move","flight":6,"keep":false},{"do":"answer","node":"nic"},{"do":"answer","node":"nic"}]}"#;

/// nic's record is read.
const RECORD_READ: &str =
    r#"{"format":3,"events":[{"do":"put","node":"host","bytes":"011108cb0180025100000000000000000120000000"},{"do":"move","flight":1,"keep":false},{"do":"move","flight":1,"keep":false},{"do":"move","flight":1,"keep":false},{"do":"answer","node":"nic"},{"do":"move","flight":2,"keep":false},{"do":"move","flight":2,"keep":false},{"do":"move","flight":2,"keep":false}]}"#;

/// A peer begins a message under each key that it has, and ends none. Another's is dropped until the time of one is
/// over.
const SIXTEEN_OPEN: &str =
    r#"{"format":3,"events":[{"do":"put","node":"ssd","bytes":"0112088000"},{"do":"move","flight":1,"keep":false},{"do":"put","node":"ssd","bytes":"0112088100"},{"do":"move","flight":2,"keep":false},{"do":"put","node":"ssd","bytes":"0112088200"},{"do":"move","flight":3,"keep":false},{"do":"put","node":"ssd","bytes":"0112088300"},{"do":"move","flight":4,"keep":false},{"do":"put","node":"ssd","bytes":"0112088400"},{"do":"move","flight":5,"keep":false},{"do":"put","node":"ssd","bytes":"0112088500"},{"do":"move","flight":6,"keep":false},{"do":"put","node":"ssd","bytes":"0112088600"},{"do":"move","flight":7,"keep":false},{"do":"put","node":"ssd","bytes":"0112088700"},{"do":"move","flight":8,"keep":false},{"do":"put","node":"ssd","bytes":"0112088800"},{"do":"move","flight":9,"keep":false},{"do":"put","node":"ssd","bytes":"0112088900"},{"do":"move","flight":10,"keep":false},{"do":"put","node":"ssd","bytes":"0112088a00"},{"do":"move","flight":11,"keep":false},{"do":"put","node":"ssd","bytes":"0112088b00"},{"do":"move","flight":12,"keep":false},{"do":"put","node":"ssd","bytes":"0112088c00"},{"do":"move","flight":13,"keep":false},{"do":"put","node":"ssd","bytes":"0112088d00"},{"do":"move","flight":14,"keep":false},{"do":"put","node":"ssd","bytes":"0112088e00"},{"do":"move","flight":15,"keep":false},{"do":"put","node":"ssd","bytes":"0112088f00"},{"do":"move","flight":16,"keep":false},{"do":"put","node":"ssd","bytes":"0112098800"},{"do":"move","flight":17,"keep":false},{"do":"expire","node":"ssd","source":8,"tag":0,"owner":1},{"do":"put","node":"ssd","bytes":"0112098800"},{"do":"move","flight":18,"keep":false}]}"#;

/// Packets of host, ssd and nic.
pub const RUNS: [&str; 6] = [
    TO_SSD,
    AND_BACK,
    COPIED_AND_LOST,
    ENDS,
    RECORD_READ,
    SIXTEEN_OPEN,
];

/// nic's record is read in one part, and then nothing is left to ask.
const IN_ONE_PART: &str =
    r#"{"format":3,"events":[{"do":"walk","node":"host","eid":17,"tag":2,"count":32},{"do":"ask","walker":1},{"do":"move","flight":1,"keep":false},{"do":"move","flight":1,"keep":false},{"do":"move","flight":1,"keep":false},{"do":"answer","node":"nic"},{"do":"move","flight":2,"keep":false},{"do":"move","flight":2,"keep":false},{"do":"move","flight":2,"keep":false},{"do":"collected","walker":1},{"do":"ask","walker":1}]}"#;

/// A walk in two parts. A copy of the first request stays at host, and the next one waits until it is lost.
const AFTER_A_LOST_FLIGHT: &str =
    r#"{"format":3,"events":[{"do":"walk","node":"host","eid":17,"tag":2,"count":16},{"do":"ask","walker":1},{"do":"move","flight":1,"keep":true},{"do":"move","flight":2,"keep":false},{"do":"move","flight":2,"keep":false},{"do":"answer","node":"nic"},{"do":"move","flight":3,"keep":false},{"do":"move","flight":3,"keep":false},{"do":"move","flight":3,"keep":false},{"do":"ask","walker":1},{"do":"lose","flight":1},{"do":"ask","walker":1},{"do":"collected","walker":1},{"do":"move","flight":4,"keep":false},{"do":"move","flight":4,"keep":false},{"do":"move","flight":4,"keep":false},{"do":"answer","node":"nic"},{"do":"move","flight":5,"keep":false},{"do":"move","flight":5,"keep":false},{"do":"move","flight":5,"keep":false},{"do":"collected","walker":1}]}"#;

/// The request is asked twice and answered twice. The second answer is taken, the first one comes late.
const A_LATE_ANSWER: &str =
    r#"{"format":3,"events":[{"do":"walk","node":"host","eid":17,"tag":2,"count":16},{"do":"ask","walker":1},{"do":"move","flight":1,"keep":false},{"do":"move","flight":1,"keep":false},{"do":"move","flight":1,"keep":false},{"do":"ask","walker":1},{"do":"move","flight":2,"keep":false},{"do":"move","flight":2,"keep":false},{"do":"move","flight":2,"keep":false},{"do":"answer","node":"nic"},{"do":"answer","node":"nic"},{"do":"move","flight":4,"keep":false},{"do":"move","flight":4,"keep":false},{"do":"move","flight":4,"keep":false},{"do":"collected","walker":1},{"do":"ask","walker":1},{"do":"move","flight":3,"keep":false},{"do":"move","flight":3,"keep":false},{"do":"move","flight":3,"keep":false},{"do":"collected","walker":1},{"do":"ask","walker":1},{"do":"collected","walker":9}]}"#;

/// A repeated request still waits at nic when the answer comes: the next request has to wait for it.
const A_REQUEST_THAT_WAITS: &str =
    r#"{"format":3,"events":[{"do":"walk","node":"host","eid":17,"tag":2,"count":16},{"do":"ask","walker":1},{"do":"move","flight":1,"keep":false},{"do":"move","flight":1,"keep":false},{"do":"move","flight":1,"keep":false},{"do":"ask","walker":1},{"do":"move","flight":2,"keep":false},{"do":"move","flight":2,"keep":false},{"do":"move","flight":2,"keep":false},{"do":"answer","node":"nic"},{"do":"move","flight":3,"keep":false},{"do":"move","flight":3,"keep":false},{"do":"move","flight":3,"keep":false},{"do":"ask","walker":1},{"do":"answer","node":"nic"},{"do":"ask","walker":1},{"do":"lose","flight":4},{"do":"ask","walker":1}]}"#;

/// Somebody else puts an answer in under the walker's second key: it ends the walk, and more is told so.
const LIES_UNDER_THE_KEY: &str =
    r#"{"format":3,"events":[{"do":"walk","node":"host","eid":17,"tag":2,"count":32},{"do":"ask","walker":1},{"do":"put","node":"nic","bytes":"010811c20100025101"},{"do":"move","flight":2,"keep":false},{"do":"move","flight":2,"keep":false},{"do":"move","flight":2,"keep":false},{"do":"collected","walker":1},{"do":"ask","walker":1},{"do":"move","flight":1,"keep":false},{"do":"move","flight":1,"keep":false},{"do":"move","flight":1,"keep":false},{"do":"answer","node":"nic"},{"do":"move","flight":3,"keep":false},{"do":"move","flight":3,"keep":false},{"do":"move","flight":3,"keep":false},{"do":"collected","walker":1}]}"#;

/// A message under the second key before anything was asked, and one under another tag.
const BEFORE_ANYTHING_IS_ASKED: &str =
    r#"{"format":3,"events":[{"do":"walk","node":"host","eid":17,"tag":2,"count":32},{"do":"put","node":"nic","bytes":"010811c20100025100000000000000000005130001000000010100000900010001010000010111"},{"do":"move","flight":1,"keep":false},{"do":"move","flight":1,"keep":false},{"do":"move","flight":1,"keep":false},{"do":"put","node":"nic","bytes":"010811c30100025101"},{"do":"move","flight":2,"keep":false},{"do":"move","flight":2,"keep":false},{"do":"move","flight":2,"keep":false},{"do":"put","node":"nic","bytes":"010811ca0180000205"},{"do":"move","flight":3,"keep":false},{"do":"move","flight":3,"keep":false},{"do":"move","flight":3,"keep":false},{"do":"collected","walker":1},{"do":"ask","walker":1}]}"#;

/// Two walkers at once over one terminus, under two tags.
const TWO_AT_ONCE: &str =
    r#"{"format":3,"events":[{"do":"walk","node":"host","eid":17,"tag":2,"count":16},{"do":"walk","node":"host","eid":17,"tag":3,"count":32},{"do":"ask","walker":2},{"do":"ask","walker":1},{"do":"move","flight":1,"keep":false},{"do":"move","flight":2,"keep":false},{"do":"move","flight":2,"keep":false},{"do":"move","flight":1,"keep":false},{"do":"move","flight":1,"keep":false},{"do":"move","flight":2,"keep":false},{"do":"answer","node":"nic"},{"do":"answer","node":"nic"},{"do":"move","flight":4,"keep":false},{"do":"move","flight":4,"keep":false},{"do":"move","flight":4,"keep":false},{"do":"move","flight":3,"keep":false},{"do":"move","flight":3,"keep":false},{"do":"move","flight":3,"keep":false},{"do":"collected","walker":1},{"do":"collected","walker":2},{"do":"ask","walker":1},{"do":"ask","walker":2},{"do":"move","flight":5,"keep":false},{"do":"move","flight":5,"keep":false},{"do":"move","flight":5,"keep":false},{"do":"answer","node":"nic"},{"do":"move","flight":6,"keep":false},{"do":"move","flight":6,"keep":false},{"do":"move","flight":6,"keep":false},{"do":"collected","walker":1},{"do":"collected","walker":2}]}"#;

/// A walker may sit at the node that it asks.
const AT_THE_TERMINUS: &str =
    r#"{"format":3,"events":[{"do":"walk","node":"nic","eid":17,"tag":0,"count":303},{"do":"ask","walker":1},{"do":"move","flight":1,"keep":false},{"do":"answer","node":"nic"},{"do":"move","flight":2,"keep":false},{"do":"collected","walker":1}]}"#;

/// Why events of walks are refused: bounds of the count, doubled walkers, no terminus, no walker.
const REFUSED: &str =
    r#"{"format":3,"events":[{"do":"walk","node":"host","eid":17,"tag":0,"count":8},{"do":"walk","node":"host","eid":17,"tag":1,"count":303},{"do":"walk","node":"host","eid":17,"tag":2,"count":304},{"do":"walk","node":"host","eid":17,"tag":2,"count":4079},{"do":"walk","node":"host","eid":17,"tag":0,"count":8},{"do":"walk","node":"host","eid":17,"tag":0,"count":304},{"do":"walk","node":"host","eid":18,"tag":0,"count":32},{"do":"walk","node":"host","eid":200,"tag":0,"count":32},{"do":"walk","node":"ssd","eid":17,"tag":0,"count":8},{"do":"walk","node":"nic","eid":17,"tag":0,"count":8},{"do":"ask","walker":5},{"do":"ask","walker":0},{"do":"collected","walker":5},{"do":"collected","walker":0},{"do":"collected","walker":4},{"do":"ask","walker":1},{"do":"ask","walker":1},{"do":"collected","walker":1}]}"#;

/// Walks.
pub const WALKS: [&str; 9] = [
    IN_ONE_PART,
    AFTER_A_LOST_FLIGHT,
    A_LATE_ANSWER,
    A_REQUEST_THAT_WAITS,
    LIES_UNDER_THE_KEY,
    BEFORE_ANYTHING_IS_ASKED,
    TWO_AT_ONCE,
    AT_THE_TERMINUS,
    REFUSED,
];

/// Host switches while a request is on its way, and then sends another.
pub const SWITCHED: &str =
    r#"{"format":3,"events":[{"do":"put","node":"host","bytes":"011108cb01800002"},{"do":"move","flight":1,"keep":false},{"do":"switch","node":"host"},{"do":"move","flight":1,"keep":false},{"do":"move","flight":1,"keep":false},{"do":"put","node":"host","bytes":"011108cb01800002"},{"do":"move","flight":2,"keep":false},{"do":"switch","node":"host"},{"do":"move","flight":2,"keep":false}]}"#;
