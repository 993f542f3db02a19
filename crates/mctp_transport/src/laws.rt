//! Laws that hold of all packets. The functions do nothing: their contracts are the laws.
ghost use Rattle.std.specs.Prelude.{◌≡◌, ◌↔◌, ℕ, List};
ghost use Rattle.mctp_transport.{specs.PacketValues.{PacketValue, KeyValue, Spelled}, specs.Histories.{History, IsOpen}, specs.OpenKeys.{IsOpenNow}};

/// A byte list spells one packet at most, and a packet has one spelling.
pub fn one_spelling()
    ensures value { (unit : ℕ) (f g : PacketValue) (bytes : List ℕ) → Spelled unit f bytes → Spelled unit g bytes → f ≡ g }
    ensures bytes { (unit : ℕ) (f : PacketValue) (bytes others : List ℕ) → Spelled unit f bytes → Spelled unit f others → bytes ≡ others }
{}

/// A key is open exactly where its message is under way, and where other keys were open in fewer than all slots before
/// it began. So a look back over as many inputs as there are misses none.
#[tactic(auto, using(crate::proofs::Openness::open_parts, crate::proofs::Openness::open_from))]
pub fn open_keys()
    ensures { (slots limit : ℕ) (history : History) (key : KeyValue) → IsOpen slots limit history key ↔ IsOpenNow slots limit history key }
{}
