//! The grammar of plans, certificates and events.
ghost use Rattle.std.specs.Prelude.{◌≡◌};
ghost use Rattle.net_plan.{specs.Grammar.{grammar}, specs.Tables.{a_plan, a_certificate, events_in}};

use crate::event_format::Format;
use crate::plan_format::PlanFormat;
use crate::shape::{Field, Named, Rule, Shape, Word};

/// A whole number between two bounds.
macro_rules! number {
    ($least:expr, $most:expr) => {
        Shape::Plain(Word::Number { least: $least, most: $most })
    };
}

/// A list: of at most so many items, or of any length.
macro_rules! list {
    ($most:expr, $item:expr) => {
        Shape::List { most: $most, item: &$item }
    };
}

/// An object with these keys, in the order of tests.
macro_rules! object {
    ($rule:expr, $($key:literal: $shape:expr),*) => {
        Shape::Object { rule: $rule, fields: &[$(Field { key: $key, shape: $shape }),*] }
    };
}

/// An event that does this, and has these keys.
macro_rules! event_of {
    ($word:literal, $($key:literal: $shape:expr),*) => {
        object!(Rule::None, "do": Shape::OneOf(&[$word]), $($key: $shape),*)
    };
}

/// An event that does one of these.
macro_rules! any_event {
    ($($word:literal: $shape:expr),*) => {
        Shape::Choice {
            at: &Field { key: "do", shape: Shape::OneOf(&[$($word),*]) },
            choices: &[$(Field { key: $word, shape: $shape }),*],
        }
    };
}

/// A list of such events.
macro_rules! events_of {
    ($event:expr) => {
        object!(Rule::None, "format": number!(1, 3), "events": list!(Some(100_000), $event))
    };
}

const BYTE: Shape = number!(0, 255);

const ABOVE_ZERO: Shape = number!(1, 255);

const WORD: Shape = number!(0, 4_294_967_295);

const NAME: Shape = Shape::Plain(Word::Name);

const NAMED_BUS: Shape = Shape::Plain(Word::Named(Named::Buses));

const NAMED_NODE: Shape = Shape::Plain(Word::Named(Named::Nodes));

const TRUTH: Shape = Shape::Plain(Word::Truth);

const KIND: Shape = Shape::Plain(Word::Kind);

const HEX: Shape = Shape::Plain(Word::Hex);

const ADDRESS: Shape = Shape::Plain(Word::Address);

const BUS: Shape = object!(Rule::None, "name": NAME, "binding": BYTE, "media": BYTE);

const PORT: Shape = object!(Rule::None, "bus": NAMED_BUS, "address": ADDRESS);

const ROW: Shape =
    object!(Rule::None, "first": BYTE, "size": BYTE, "port": number!(0, 31), "next": NAMED_NODE);

const POOL: Shape = object!(Rule::None, "first": BYTE, "size": BYTE);

const RECORD: Shape = object!(Rule::None, "handle": WORD, "next": WORD, "bytes": HEX);

const TERMINUS: Shape =
    object!(Rule::None, "tid": number!(0, 254), "records": list!(Some(4096), RECORD));

const NODE: Shape = object!(
    Rule::None,
    "name": NAME,
    "kind": KIND,
    "eid": BYTE,
    "owner": Shape::Optional(&NAMED_NODE),
    "pool": Shape::Optional(&POOL),
    "ports": list!(Some(32), PORT),
    "rows": list!(Some(256), ROW),
    "terminus": Shape::Optional(&TERMINUS)
);

const BUSES: Shape = list!(Some(64), BUS);

const NODES: Shape = list!(Some(64), NODE);

static PLAN_ONE: Shape =
    object!(Rule::None, "format": number!(1, 1), "buses": BUSES, "nodes": NODES);

static PLAN_TWO: Shape = object!(
    Rule::None,
    "format": number!(2, 2),
    "unit": number!(64, 1024),
    "buses": BUSES,
    "nodes": NODES
);

const LEVEL: Shape = object!(Rule::None, "level": number!(1, 63), "node": NAMED_NODE);

const PLACE: Shape = number!(0, 4095);

const NODE_PLACES: Shape = object!(Rule::None, "node": NAMED_NODE, "places": list!(None, PLACE));

const RANGE: Shape =
    object!(Rule::EndsInTime, "first": BYTE, "rank": ABOVE_ZERO, "size": ABOVE_ZERO);

const NODE_RANKS: Shape = object!(Rule::None, "node": NAMED_NODE, "ranges": list!(None, RANGE));

static CERTIFICATE: Shape = object!(
    Rule::None,
    "format": number!(1, 1),
    "levels": list!(None, LEVEL),
    "places": list!(None, NODE_PLACES),
    "ranks": list!(None, NODE_RANKS)
);

const TAG: Shape = number!(0, 7);

const PUT: Shape = event_of!("put", "node": NAMED_NODE, "bytes": HEX);

const MOVE: Shape = event_of!("move", "flight": WORD, "keep": TRUTH);

const LOSE: Shape = event_of!("lose", "flight": WORD);

const EXPIRE: Shape =
    event_of!("expire", "node": NAMED_NODE, "source": BYTE, "tag": TAG, "owner": number!(0, 1));

const ANSWER: Shape = event_of!("answer", "node": NAMED_NODE);

const SWITCH: Shape = event_of!("switch", "node": NAMED_NODE);

const WALK: Shape = event_of!(
    "walk",
    "node": NAMED_NODE,
    "eid": number!(8, 254),
    "tag": TAG,
    "count": number!(8, 4079)
);

const ASK: Shape = event_of!("ask", "walker": WORD);

const COLLECTED: Shape = event_of!("collected", "walker": WORD);

static EVENTS_ONE: Shape = events_of!(any_event!(
    "put": PUT,
    "move": MOVE,
    "lose": LOSE,
    "expire": EXPIRE,
    "answer": ANSWER
));

static EVENTS_TWO: Shape = events_of!(any_event!(
    "put": PUT,
    "move": MOVE,
    "lose": LOSE,
    "expire": EXPIRE,
    "answer": ANSWER,
    "switch": SWITCH
));

static EVENTS_THREE: Shape = events_of!(any_event!(
    "put": PUT,
    "move": MOVE,
    "lose": LOSE,
    "expire": EXPIRE,
    "answer": ANSWER,
    "switch": SWITCH,
    "walk": WALK,
    "ask": ASK,
    "collected": COLLECTED
));

/// What a plan of a format is.
pub fn plan_shape(format: PlanFormat) -> &'static Shape
    ensures { grammar result.now ≡ a_plan format }
{
    match format {
        PlanFormat::One => plan_one(),
        PlanFormat::Two => plan_two(),
    }
}

fn plan_one() -> &'static Shape
    ensures { grammar result.now ≡ a_plan PlanFormat.One }
{
    &PLAN_ONE
}

fn plan_two() -> &'static Shape
    ensures { grammar result.now ≡ a_plan PlanFormat.Two }
{
    &PLAN_TWO
}

/// What a certificate is.
pub fn certificate_shape() -> &'static Shape
    ensures { grammar result.now ≡ a_certificate }
{
    &CERTIFICATE
}

/// What a list of events of a format is.
pub fn events_shape(format: Format) -> &'static Shape
    ensures { grammar result.now ≡ events_in format }
{
    match format {
        Format::One => events_one(),
        Format::Two => events_two(),
        Format::Three => events_three(),
    }
}

fn events_one() -> &'static Shape
    ensures { grammar result.now ≡ events_in Format.One }
{
    &EVENTS_ONE
}

fn events_two() -> &'static Shape
    ensures { grammar result.now ≡ events_in Format.Two }
{
    &EVENTS_TWO
}

fn events_three() -> &'static Shape
    ensures { grammar result.now ≡ events_in Format.Three }
{
    &EVENTS_THREE
}
