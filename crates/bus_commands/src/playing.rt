//! Lines that are taken one after another, and what is written for each.
ghost use Rattle.std.specs.Prelude.{◌≡◌, OnOk, string_bytes};
ghost use Rattle.command_answers.specs.Answers.{stream};
ghost use Rattle.net_plan.specs.Stream.{HasRoom};
ghost use Rattle.bus_commands.specs.Playing.{KeepsRoom, PlaysLine, PlaysLines, Writes};

use crate::lines::next_line;
use crate::player::Player;
use crate::turn::Turn;
use command_answers::{Input, Refused};
use net_plan::{PlanError, Sink, Source, write_whole};
use std::alloc::Global;

/// Why no more lines are taken.
#[derive(Clone, Copy, PartialEq, Eq)]
pub enum Stop {
    /// This is to be said on standard error.
    Refused(Refused),
    /// Standard error failed.
    Unsaid,
}

impl From<Refused> for Stop {
    ghost use Rattle.std.specs.Prelude.{◌≡◌};
    ghost use Rattle.bus_commands.specs.declared.playing.Stop.TheVariants as stop;

    ghost from_gives = { λ why made. made ≡ stop.Refused why };

    fn from(why: Refused) -> Stop {
        Stop::Refused(why)
    }
}

/// Gives a player the lines of a source to its end. What is written for a line is written before the next one
/// is read.
pub fn play_lines<P: Player, I: Source, O: Sink, E: Sink>(
    alloc: Global,
    player: &mut P,
    packets: &mut I,
    output: &mut O,
    errors: &mut E,
) -> Result<(), Stop>
    requires packets { HasRoom (I.account packets.old) }
    requires output { HasRoom (O.account output.old) }
    requires errors { HasRoom (E.account errors.old) }
    ensures plays { (s : P.State) → P.stands player.old s
        → PlaysLines (P.takes (P.nature player.old)) s result (stream I.account packets.old packets.new) (stream O.account output.old output.new)
        (stream E.account errors.old errors.new) }
    ensures noted { KeepsRoom result (stream E.account errors.old errors.new) }
{
    for _ in 0..u64::MAX {
        let is_last = play_line(alloc, player, packets, output, errors)?;
        if is_last {
            return Ok(());
        }
    }
    Err(Stop::Refused(Refused::at_input(Input::Lines, PlanError::OverLimit)))
}

/// Gives a player the next line of a source, and says whether it was the last one.
fn play_line<P: Player, I: Source, O: Sink, E: Sink>(
    alloc: Global,
    player: &mut P,
    packets: &mut I,
    output: &mut O,
    errors: &mut E,
) -> Result<bool, Stop>
    requires packets { HasRoom (I.account packets.old) }
    requires output { HasRoom (O.account output.old) }
    requires errors { HasRoom (E.account errors.old) }
    ensures same { P.nature player.new ≡ P.nature player.old }
    ensures plays { (s : P.State) → P.stands player.old s
        → PlaysLine (P.stands player.new) (P.takes (P.nature player.old)) s result (stream I.account packets.old packets.new)
        (stream O.account output.old output.new) (stream E.account errors.old errors.new) }
    ensures read { OnOk result ((I.account packets.new).failures ≡ (I.account packets.old).failures) }
    ensures written { OnOk result ((O.account output.new).failures ≡ (O.account output.old).failures) }
    ensures noted { KeepsRoom result (stream E.account errors.old errors.new) }
{
    let line = match next_line(alloc, packets) {
        Ok(line) => line,
        Err(why) => {
            let refused = Refused::at_input(Input::Lines, PlanError::from(why));
            return Err(Stop::Refused(refused));
        }
    };
    match player.take(&line.text) {
        Ok(turn) => {
            write_turn(&turn, output, errors)?;
            Ok(line.is_last)
        }
        // no memory: `take` has no other error.
        Err(_) => Err(Stop::Refused(Refused::NoMemory)),
    }
}

/// Writes what becomes of a line.
fn write_turn<O: Sink, E: Sink>(turn: &Turn, output: &mut O, errors: &mut E) -> Result<(), Stop>
    requires output { HasRoom (O.account output.old) }
    requires errors { HasRoom (E.account errors.old) }
    ensures writes { Writes (string_bytes turn.now.answer) turn.now.note.items result (stream O.account output.old output.new)
        (stream E.account errors.old errors.new) }
    ensures written { OnOk result ((O.account output.new).failures ≡ (O.account output.old).failures) }
    ensures noted { KeepsRoom result (stream E.account errors.old errors.new) }
{
    if write_whole(output, turn.answer.as_bytes()).is_err() {
        return Err(Stop::Refused(Refused::Unwritten));
    }
    if write_whole(errors, &turn.note).is_err() {
        return Err(Stop::Unsaid);
    }
    Ok(())
}
