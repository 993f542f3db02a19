//! Laws of cutting. The functions do nothing: their contracts are the laws.
ghost use Rattle.std.specs.Prelude.{◌≡◌, ℕ, ◌<◌, List, length};
ghost use Rattle.mctp_transport.{specs.PacketValues.{PacketValue, KeyValue}, specs.Messages.{Joined}, specs.Cutting.{IsCut, ArePacketsOf}};

/// A message is cut in one way only, and its cut makes one list of packets only.
pub fn one_cut()
    ensures payloads { (unit : ℕ) (message : List ℕ) (ps qs : List (List ℕ))
        → IsCut unit message ps → IsCut unit message qs → ps ≡ qs }
    ensures packets { (unit : ℕ) (message : List ℕ) (destination : ℕ) (key : KeyValue) (start : ℕ) (fs gs : List PacketValue)
        → ArePacketsOf unit message destination key start fs
        → ArePacketsOf unit message destination key start gs → fs ≡ gs }
{}

/// The packets of a message join to it.
pub fn cut_joins()
    ensures { (unit : ℕ) (message : List ℕ) (destination : ℕ) (key : KeyValue) (start : ℕ) (fs : List PacketValue)
        → 0 < length message → ArePacketsOf unit message destination key start fs → Joined fs message }
{}
