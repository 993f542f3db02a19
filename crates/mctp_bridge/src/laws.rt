//! Laws of all readings of routing tables. The functions do nothing: their contracts are the laws.
ghost use Rattle.mctp_bridge.specs.Reads.{EveryReadingCollects, AsksWhatIsDue, EveryReplyIsTaken};

/// What a reading has collected is a beginning of the bridge's table, and once it is finished it is the table.
pub fn readings_collect_all()
    ensures { EveryReadingCollects }
{}

/// An entry reader asks for what is due, and for nothing once all is read.
pub fn asks_what_is_due()
    ensures { AsksWhatIsDue }
{}

/// A bridge replies to each request of an entry reader. The reader takes the reply without a fault, and has the whole
/// table with the last.
pub fn every_reply_is_taken()
    ensures { EveryReplyIsTaken }
{}
