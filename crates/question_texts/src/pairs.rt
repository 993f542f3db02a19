//! What the command `reach` prints.
ghost use Rattle.std.specs.Prelude.{◌≡◌, count_by, IfOk, string_bytes};
ghost use Rattle.question_texts.specs.PairLines.{pair_line, is_reached, is_one_way, pairs_line, reach_text};

use net_questions::Pair;
use net_tables::lookup::node_name;
use plan_values::Plan;
use std::alloc::{AllocError, Global};

/// The pairs, each in a line of its own, and a line that counts them.
pub fn reach_lines(alloc: Global, plan: &Plan, pairs: &[Pair]) -> Result<String, AllocError>
    ensures { IfOk result (λ lines. string_bytes lines ≡ reach_text plan.now pairs.now) }
{
    let mut lines = String::new(alloc);
    for pair in pairs {
        lines.push_str(&pair_line(alloc, plan, pair)?)?;
    }
    lines.push_str(&pairs_line(alloc, pairs)?)?;
    Ok(lines)
}

fn pair_line(alloc: Global, plan: &Plan, pair: &Pair) -> Result<String, AllocError>
    ensures { IfOk result (λ line. string_bytes line ≡ pair_line plan.now pair.now) }
{
    let from = node_name(plan, pair.from);
    let to = node_name(plan, pair.to);
    match pair.there {
        Some(hops) => format!(in alloc; "{from} {to} hops {hops}\n"),
        None => format!(in alloc; "{from} {to} none\n"),
    }
}

fn pairs_line(alloc: Global, pairs: &[Pair]) -> Result<String, AllocError>
    ensures { IfOk result (λ line. string_bytes line ≡ pairs_line pairs.now) }
{
    let count = pairs.len();
    let reached = reached_among(pairs);
    let one_way = one_way_among(pairs);
    format!(in alloc; "pairs {count} reached {reached} one-way {one_way}\n")
}

/// How many pairs have a way there.
fn reached_among(pairs: &[Pair]) -> usize
    ensures { result ≡ count_by is_reached pairs.now }
{
    pairs.iter().filter(|pair| pair.there.is_some()).count()
}

/// How many pairs have a way there and none back.
fn one_way_among(pairs: &[Pair]) -> usize
    ensures { result ≡ count_by is_one_way pairs.now }
{
    pairs.iter().filter(|pair| is_one_way(pair)).count()
}

/// Whether the pair has a way there and none back.
fn is_one_way(pair: &Pair) -> bool
    ensures { result ≡ is_one_way pair.now }
{
    pair.there.is_some() && pair.back.is_none()
}
