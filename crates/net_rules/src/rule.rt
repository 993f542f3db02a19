//! The rules that a plan and its certificate are checked by.
ghost use Rattle.std.specs.Prelude.{◌≡◌};
ghost use Rattle.net_rules.specs.Rules.{code_of};

/// A rule, in the order in which they are tested.
#[derive(Clone, Copy, Debug, PartialEq, Eq)]
pub enum Rule {
    /// No earlier node has the node's name.
    C01,
    /// The node's endpoint ID lies in 8 to 254.
    C02,
    /// No earlier node holds the node's endpoint ID.
    C03,
    /// A row covers at least one endpoint ID, and only such as lie in 8 to 254.
    C04,
    /// A row covers no endpoint ID that an earlier row of the node covers.
    C05,
    /// A row's port exists, its next node is another node with a port on that port's bus, and a row of several
    /// endpoint IDs names a bridge.
    C06,
    /// A node's owner is a bridge that shares a bus with it, and is of a lower level.
    C07,
    /// An owned node's endpoint ID lies in its owner's pool, and no node's endpoint ID lies in the pool of a bridge
    /// with the same owner.
    C08,
    /// Only a bridge has a pool. The pool is not empty, lies in 8 to 254 and in the pool of the bridge's owner, and
    /// shares nothing with the pools of earlier nodes of the same owner.
    C09,
    /// Along a row, the certified rank of each endpoint ID that the node does not hold falls.
    C10,
    /// A row leads an endpoint ID that another node holds to a node that holds it, or to a bridge with a row for it.
    C11,
    /// A terminus has records, each with a handle that is not 0 and no earlier record's.
    C12,
    /// A record's bytes are those of a record, with its handle in the header.
    C13,
    /// The certified places lead along the next handles through all records once.
    C14,
    /// A terminus locator names a node that holds the endpoint ID and whose terminus has the terminus ID.
    C15,
    /// The certificate gives no level, rank or place that the plan has no use for.
    C16,
}

/// The rules, in their order.
pub const RULES: [Rule; 16] = [
    Rule::C01,
    Rule::C02,
    Rule::C03,
    Rule::C04,
    Rule::C05,
    Rule::C06,
    Rule::C07,
    Rule::C08,
    Rule::C09,
    Rule::C10,
    Rule::C11,
    Rule::C12,
    Rule::C13,
    Rule::C14,
    Rule::C15,
    Rule::C16,
];

impl Rule {
    /// The code that users see, as `C01`.
    pub fn code(self) -> &'static str
        ensures { result.now ≡ code_of self }
    {
        match self {
            Rule::C01 => "C01",
            Rule::C02 => "C02",
            Rule::C03 => "C03",
            Rule::C04 => "C04",
            Rule::C05 => "C05",
            Rule::C06 => "C06",
            Rule::C07 => "C07",
            Rule::C08 => "C08",
            Rule::C09 => "C09",
            Rule::C10 => "C10",
            Rule::C11 => "C11",
            Rule::C12 => "C12",
            Rule::C13 => "C13",
            Rule::C14 => "C14",
            Rule::C15 => "C15",
            Rule::C16 => "C16",
        }
    }
}
