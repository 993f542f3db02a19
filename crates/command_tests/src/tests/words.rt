//! Words that are no command. Which words are which command, the rows in `tests/` tell.
use command_answers::Refused;
use command_line::parse_command;
use std::alloc::{AllocError, Global};
use std::test::Fail;

/// Lists of words with bars between, the program's name first.
const USAGE: [&str; 113] = [
    "mctpplan",
    "mctpplan|",
    "mctpplan||a|b",
    "mctpplan|-h",
    "mctpplan|--help",
    "mctpplan|help",
    "mctpplan|help|check",
    "mctpplan|-V",
    "mctpplan|--version",
    "mctpplan|a|b|check",
    "mctpplan|che|a|b",
    "mctpplan|chequer|a|b",
    "mctpplan|Check|a|b",
    "mctpplan|check",
    "mctpplan|check|one",
    "mctpplan|check|a|b|c",
    "mctpplan|check|-h",
    "mctpplan|check|--help",
    "mctpplan|check|a|-b",
    "mctpplan|check|a|--plan|b",
    "mctpplan|certify",
    "mctpplan|certify|a|b",
    "mctpplan|explain",
    "mctpplan|explain|a|b|c|d",
    "mctpplan|explain|a|b|c|--json",
    "mctpplan|explain|a|b|c|--move|d",
    "mctpplan|explain|a|--move|b|--json",
    "mctpplan|faults|a|--json|--sarif",
    "mctpplan|lint|a|--sarif",
    "mctpplan|reach|a|--json",
    "mctpplan|explain|--move|b",
    "mctpplan|explain|a|--move",
    "mctpplan|explain|a|b|--move|c",
    "mctpplan|explain|a|--move|b|--move|c",
    "mctpplan|faults",
    "mctpplan|faults|a|b|c",
    "mctpplan|lint",
    "mctpplan|lint|a|b",
    "mctpplan|reach|a",
    "mctpplan|trace|a|b|c",
    "mctpplan|draw",
    "mctpplan|draw|a|b|c",
    "mctpplan|draw|--rows|a",
    "mctpplan|draw|a|--rows|7",
    "mctpplan|faults|a|--rows",
    "mctpplan|matrix|a",
    "mctpplan|require|a|b",
    "mctpplan|certifymove|a",
    "mctpplan|certifymove|a|b|c",
    "mctpplan|expect|a|b|c",
    "mctpplan|make",
    "mctpplan|make|a|b",
    "mctpplan|make|a|--certificate",
    "mctpplan|make|a|--certificate|-",
    "mctpplan|rows|a|b",
    "mctpplan|rollout|a",
    "mctpplan|rollout|a|b|c",
    "mctpplan|rollout|a|b|--write",
    "mctpplan|rollout|a|b|--write|-",
    "mctpplan|script|a|b|walk|nic|18",
    "mctpplan|script|a|b|run|nic|18|16",
    "mctpplan|script|a|b|walk|nic|7|16",
    "mctpplan|fix",
    "mctpplan|fix|a|b",
    "mctpplan|decode",
    "mctpplan|decode|a|b|c",
    "mctpplan|audit|a|b|c|--bus",
    "mctpplan|capture|a|b",
    "mctpplan|emulate|a|b",
    "mctpplan|emulate|-|b|nic",
    "mctpplan|emulate|a|b|nic|--configured|c",
    "mctpplan|export",
    "mctpplan|export|linux|a|b",
    "mctpplan|export|linux|a|b|c|--link|b0",
    "mctpplan|export|linux|a|b|c|--link|=mctpi2c0",
    "mctpplan|export|linux|a|b|c|--link|b0=",
    "mctpplan|report",
    "mctpplan|report|a|b|c",
    "mctpplan|assign|a",
    "mctpplan|move|a|b",
    "mctpplan|move|a|b|c|d",
    "mctpplan|sim|a|b",
    "mctpplan|simmove|a|b|c",
    "mctpplan|simmove|a|b|c|d|e",
    "mctpplan|guide|nothing",
    "mctpplan|guide|check|a",
    "mctpplan|version|a",
    "mctpplan|schema",
    "mctpplan|schema|node",
    "mctpplan|code",
    "mctpplan|code|C99",
    "mctpplan|code|c08 ",
    "mctpplan|describe",
    "mctpplan|record",
    "mctpplan|show|01",
    "mctpplan|show||01",
    "mctpplan|show|frame|01",
    "mctpplan|show|packet",
    "mctpplan|show|packet|01|02",
    "mctpplan|show|Packet|01",
    "mctpplan|walk|a|b|nic",
    "mctpplan|walk|a|b|16",
    "mctpplan|walk|a|b|nic|7",
    "mctpplan|walk|a|b|nic|4080",
    "mctpplan|walk|a|b|nic|65552",
    "mctpplan|walk|a|b|nic|18446744073709551632",
    "mctpplan|walk|a|b|nic|",
    "mctpplan|walk|a|b|nic|+16",
    "mctpplan|walk|a|b|nic|-16",
    "mctpplan|walk|a|b|nic|16.0",
    "mctpplan|walk|a|b|nic|0x10",
    "mctpplan|walk|a|b|nic|sixteen",
    "mctpplan|walk|a|b|nic|\u{661}\u{666}",
];

/// The words of such a list.
fn words_of(alloc: Global, list: &str) -> Result<Vec<String>, AllocError> {
    let mut words = Vec::new(alloc);
    for word in list.split('|') {
        words.push(String::from_str(alloc, word)?)?;
    }
    Ok(words)
}

/// The first list that is a command.
fn first_command(
    alloc: Global,
    lists: &[&'static str],
) -> Result<Option<&'static str>, AllocError> {
    for list in lists {
        let words = words_of(alloc, *list)?;
        if !matches!(parse_command(alloc, &words), Err(Refused::Usage)) {
            return Ok(Some(*list));
        }
    }
    Ok(None)
}

#[test]
fn other_words_are_usage(rt: HostRuntime) -> Result<(), Fail> {
    assert_eq!(rt; first_command(rt.alloc(), &USAGE)?, None);
    assert!(rt; matches!(parse_command(rt.alloc(), &[]), Err(Refused::Usage)));
    Ok(())
}
