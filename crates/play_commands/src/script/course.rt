//! What happens next in a walk over a network.
use command_questions::Flights;
use mctp_transport::Key;
use net_sim::{Effect, Handed, Outcome};
use pdr_repository::Step;
use plan_values::Event;
use std::alloc::{AllocError, Global};
use std::collections::VecDeque;

/// The tag of the walker's requests.
pub const TAG: u8 = 0;

/// The number of the walker.
pub const WALKER: usize = 1;

/// What is under way in a network with one walker.
#[derive(Drop)]
pub struct Course<'a> {
    lost: Flights<'a>,
    repeated: Flights<'a>,
    /// The flights that were repeated.
    copied: Vec<u32>,
    /// The flights that are on their way, the next one to move first.
    flights: VecDeque<u32>,
    /// The nodes at which a request waits for an answer.
    waiting: VecDeque<usize>,
    /// The messages that are open, each at a node under a key.
    open: Vec<(usize, Key)>,
    /// Whether the walker has all records.
    done: bool,
}

impl<'a> Course<'a> {
    /// Nothing is under way yet. Some flights will be lost, and some will come twice.
    pub fn new(alloc: Global, lost: Flights<'a>, repeated: Flights<'a>) -> Course<'a> {
        Course {
            lost,
            repeated,
            copied: Vec::new(alloc),
            flights: VecDeque::new(alloc),
            waiting: VecDeque::new(alloc),
            open: Vec::new(alloc),
            done: false,
        }
    }

    /// The next event, once this has come of the last one. A flight moves on, or is lost; or else a request is
    /// answered, an open message is given up, or the walker asks, the next request or the last one again. Once it has
    /// all records, it is asked what it has collected.
    pub fn next(&mut self, last: &Outcome) -> Result<Event, AllocError> {
        self.note(last)?;
        if self.done {
            return Ok(Event::Collected { walker: WALKER });
        }
        if let Some(flight) = self.flights.pop_front() {
            return self.send(flight);
        }
        if let Some(node) = self.waiting.pop_front() {
            return Ok(Event::Answer { node });
        }
        if let Some((node, key)) = self.open.pop() {
            return Ok(Event::Expire { node, key });
        }
        Ok(Event::Ask { walker: WALKER })
    }

    /// Moves a flight once, or loses it, or moves a copy of it, behind which it follows later.
    fn send(&mut self, flight: u32) -> Result<Event, AllocError> {
        if self.lost.has(flight) {
            return Ok(Event::Lose { flight });
        }
        let keep = self.repeated.has(flight) && !self.copied.contains(&flight);
        if keep {
            self.copied.push(flight)?;
            self.flights.push_back(flight)?;
        }
        Ok(Event::Move { flight, keep })
    }

    fn note(&mut self, outcome: &Outcome) -> Result<(), AllocError> {
        match outcome {
            Outcome::Happened { effect, handed } => self.note_effect(effect, handed)?,
            Outcome::Asked { number, .. } => self.flights.push_back(*number)?,
            Outcome::Begun { .. } | Outcome::Collected { .. } | Outcome::Refused(_) => {}
        }
        Ok(())
    }

    fn note_effect(&mut self, effect: &Effect, handed: &Option<Handed>) -> Result<(), AllocError> {
        match effect {
            Effect::Moved { number, .. } => self.flights.push_front(*number)?,
            Effect::Answered { first, last, .. } => {
                for number in *first..=*last {
                    self.flights.push_back(number)?;
                }
            }
            Effect::Held { node, key, .. } => {
                self.close(*node, *key);
                self.open.push((*node, *key))?;
            }
            Effect::Whole { node, key, .. } => {
                self.close(*node, *key);
                self.note_whole(*node, handed)?;
            }
            _ => {}
        }
        Ok(())
    }

    /// Notes a message that came whole: an answer, which a walker was handed, or a request.
    fn note_whole(&mut self, node: usize, handed: &Option<Handed>) -> Result<(), AllocError> {
        match handed {
            Some(handed) => self.done = matches!(handed.result, Ok(Step::Done)),
            None => self.waiting.push_back(node)?,
        }
        Ok(())
    }

    /// A message is no longer open, if it was.
    fn close(&mut self, node: usize, key: Key) {
        self.open.retain(|entry| *entry != (node, key));
    }
}
