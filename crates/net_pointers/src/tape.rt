//! Going to the parts of a value over the links of its tape.
ghost use Rattle.std.specs.Prelude.{◌≡◌, ◌∷◌, List, Some, drop, map, IsSomeAnd};
ghost use Rattle.json.{specs.Json.{skip_value}, specs.Tape.{node_token, Linked}, specs.Token.{Token}};
ghost use Rattle.net_pointers.specs.PartTokens.{past_items, past_key, past_members, from_part, from_path};

use json::Node;

/// The index of the token with which the part begins to which a path of indices leads.
pub fn follow_links(nodes: &[Node<'_>], path: &[usize]) -> Option<usize>
    requires { Linked (map node_token nodes.now) 0 nodes.now }
    ensures { (ts : List Token) → from_path path.now (map node_token nodes.now) ≡ Some ts → IsSomeAnd result (λ at. ts ≡ drop at (map node_token nodes.now)) }
{
    let mut at = 0;
    for index in path {
        at = enter(nodes, at, *index)?;
    }
    Some(at)
}

/// That of a part of a list or an object.
fn enter(nodes: &[Node<'_>], at: usize, index: usize) -> Option<usize>
    requires { Linked (map node_token nodes.now) 0 nodes.now }
    ensures { (ts : List Token) → from_part index (drop at (map node_token nodes.now)) ≡ Some ts → IsSomeAnd result (λ to. ts ≡ drop to (map node_token nodes.now)) }
{
    if nodes.len() <= at {
        return None;
    }
    match nodes[at] {
        Node::Array(_) => Some(after_items(nodes, at + 1, index)),
        Node::Object(_) => Some(next(nodes, after_members(nodes, at + 1, index))),
        _ => None,
    }
}

/// The index after so many items.
fn after_items(nodes: &[Node<'_>], start: usize, count: usize) -> usize
    requires { Linked (map node_token nodes.now) 0 nodes.now }
    ensures { (ts : List Token) → past_items count (drop start (map node_token nodes.now)) ≡ Some ts → ts ≡ drop result (map node_token nodes.now) }
{
    let mut at = start;
    for _ in 0..count {
        at = after_value(nodes, at);
    }
    at
}

/// The index after so many members.
fn after_members(nodes: &[Node<'_>], start: usize, count: usize) -> usize
    requires { Linked (map node_token nodes.now) 0 nodes.now }
    ensures { (ts : List Token) → past_members count (drop start (map node_token nodes.now)) ≡ Some ts → ts ≡ drop result (map node_token nodes.now) }
{
    let mut at = start;
    for _ in 0..count {
        at = after_value(nodes, next(nodes, at));
    }
    at
}

/// The index after a value.
fn after_value(nodes: &[Node<'_>], at: usize) -> usize
    requires { Linked (map node_token nodes.now) 0 nodes.now }
    ensures { (ts : List Token) → skip_value 127 (drop at (map node_token nodes.now)) ≡ Some ts → ts ≡ drop result (map node_token nodes.now) }
{
    if at < nodes.len() {
        match nodes[at] {
            Node::Object(end) | Node::Array(end) => end,
            _ => at + 1,
        }
    } else {
        at
    }
}

/// The index after a token.
fn next(nodes: &[Node<'_>], at: usize) -> usize
    ensures { (t : Token) (ts : List Token) → drop at (map node_token nodes.now) ≡ t ∷ ts → ts ≡ drop result (map node_token nodes.now) }
{
    if at < nodes.len() { at + 1 } else { at }
}
