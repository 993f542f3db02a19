//! The riser network's events.
use plan_values::Event;

fn is_put(event: &Event, at: usize, packet: &[u8]) -> bool {
    match event {
        Event::Put { node, bytes } => *node == at && bytes.as_slice() == packet,
        _ => false,
    }
}

/// Whether all are moves of a flight itself.
fn are_moves(events: &[Event], of: u32) -> bool {
    for event in events {
        match event {
            Event::Move { flight, keep } if *flight == of && !*keep => {}
            _ => return false,
        }
    }
    true
}

/// Whether the events are a request of host to nic that goes on three times, is answered, and whose answer does.
pub fn are_the_riser_events(events: &[Event]) -> bool {
    events.len() == 8
        && is_put(&events[0], 0, &[1, 17, 8, 203, 1, 128, 0, 2])
        && are_moves(&events[1..4], 1)
        && matches!(&events[4], Event::Answer { node: 2 })
        && are_moves(&events[5..8], 2)
}
