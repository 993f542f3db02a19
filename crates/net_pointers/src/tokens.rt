//! Going through the tokens of a text, and counting them.
ghost use Rattle.std.specs.Prelude.{◌≡◌, ◌<◌, Some, None, MatchOption, length, option_and_then};
ghost use Rattle.net_pointers.{specs.Scans.{AreLeft}, specs.PartTokens.{past_items, past_key, past_members, from_key, from_part, from_path}};

use json::{Reader, Token};

/// How deep arrays and objects may nest.
pub const MOST_DEPTH: usize = 127;

/// Goes to the part to which a path of indices leads.
pub fn follow(reader: &mut Reader<'_>, path: &[usize]) -> Option<()>
    ensures { MatchOption result (from_path path.now reader.old ≡ None) (λ _. from_path path.now reader.old ≡ Some reader.new) }
{
    for index in path {
        enter(reader, *index)?;
    }
    Some(())
}

/// Goes to the key of a member of the object to which a path of indices leads.
pub fn follow_to_key(reader: &mut Reader<'_>, path: &[usize], member: usize) -> Option<()>
    ensures { MatchOption result (option_and_then (from_key member) (from_path path.now reader.old) ≡ None)
        (λ _. option_and_then (from_key member) (from_path path.now reader.old) ≡ Some reader.new) }
{
    follow(reader, path)?;
    enter_object(reader, member)
}

/// Goes into a list or an object, to one of its parts.
fn enter(reader: &mut Reader<'_>, index: usize) -> Option<()>
    ensures { MatchOption result (from_part index reader.old ≡ None) (λ _. from_part index reader.old ≡ Some reader.new) }
{
    match reader.next()? {
        Token::BeginArray => pass_items(reader, index),
        Token::BeginObject => {
            pass_members(reader, index)?;
            pass_key(reader)
        }
        _ => None,
    }
}

/// Goes into an object, to the key of one of its members.
fn enter_object(reader: &mut Reader<'_>, member: usize) -> Option<()>
    ensures { MatchOption result (from_key member reader.old ≡ None) (λ _. from_key member reader.old ≡ Some reader.new) }
{
    match reader.next()? {
        Token::BeginObject => pass_members(reader, member),
        _ => None,
    }
}

fn pass_items(reader: &mut Reader<'_>, count: usize) -> Option<()>
    ensures { MatchOption result (past_items count reader.old ≡ None) (λ _. past_items count reader.old ≡ Some reader.new) }
{
    for _ in 0..count {
        reader.skip_value(MOST_DEPTH).ok()?;
    }
    Some(())
}

fn pass_members(reader: &mut Reader<'_>, count: usize) -> Option<()>
    ensures { MatchOption result (past_members count reader.old ≡ None) (λ _. past_members count reader.old ≡ Some reader.new) }
{
    for _ in 0..count {
        pass_key(reader)?;
        reader.skip_value(MOST_DEPTH).ok()?;
    }
    Some(())
}

fn pass_key(reader: &mut Reader<'_>) -> Option<()>
    ensures { MatchOption result (past_key reader.old ≡ None) (λ _. past_key reader.old ≡ Some reader.new) }
{
    match reader.next()? {
        Token::Key(_) => Some(()),
        _ => None,
    }
}

/// How many tokens a reader has left. `None` where it has none, or the first says that the text is no JSON.
pub fn count_left(reader: &mut Reader<'_>) -> Option<usize>
    requires { length reader.old < 18446744073709551616 }
    ensures { AreLeft (Some reader.old) result }
{
    match reader.next()? {
        Token::Bad => None,
        _ => Some(1 + count(reader)),
    }
}

/// How many tokens a reader has left.
pub fn count(reader: &mut Reader<'_>) -> usize
    requires { length reader.old < 18446744073709551616 }
    ensures { result ≡ length reader.old }
{
    let mut count = 0;
    while reader.next().is_some() {
        count += 1;
    }
    count
}
