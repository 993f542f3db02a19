//! The instance IDs of a requester.
ghost use Rattle.std.specs.Prelude.{◌≡◌, ◌<◌};

use crate::instance::InstanceId;

/// Which instance IDs a requester has given to requests that are under way, and which one it gave last (DSP0240, PLDM
/// message fields). No ID is given again before it was given back. None of the calls takes memory.
#[derive(Clone, Debug, Drop)]
pub struct InstanceIds {
    out: [bool; 32],
    last: Option<InstanceId>,
}

impl InstanceIds {
    ghost use Rattle.std.specs.Prelude.{◌≡◌, ◌↔◌, ℕ, false, None, IsNone, IfNone, IfSome, MatchOption};
    ghost use Rattle.pldm_message.{specs.InstanceIds.{AreAllOut, IsNextFree, Gives, TakesBack, first_place}, specs.InstanceIdValues.{ids_of}};

    /// IDs of which none is out and none was given.
    pub fn new() -> Self
        ensures out { (id : ℕ) → (ids_of result).out id ≡ false }
        ensures last { (ids_of result).last ≡ None }
    {
        InstanceIds {
            out: [false; 32],
            last: None,
        }
    }

    /// Gives the first free ID after the last one given, where 0 follows 31, and 0 at first. None only where all 32 are
    /// out; then nothing changes.
    pub fn take(&mut self) -> Option<InstanceId>
        ensures none { IsNone result ↔ AreAllOut (ids_of self.old) }
        ensures unchanged { IfNone result (self.new ≡ self.old) }
        ensures given { IfSome result (λ id. Gives (ids_of self.old) id.value (ids_of self.new)) }
    {
        let id = self.next_free()?;
        self.out[usize::from(id.value)] = true;
        self.last = Some(id);
        Some(id)
    }

    /// Takes an ID back, and says whether it was out. The next search still begins after the last ID given.
    pub fn give_back(&mut self, id: InstanceId) -> bool
        ensures was_out { result ≡ (ids_of self.old).out id.value }
        ensures back { TakesBack (ids_of self.old) id.value (ids_of self.new) }
    {
        let was_out = self.out[usize::from(id.value)];
        self.out[usize::from(id.value)] = false;
        was_out
    }

    /// Where the next ID is looked for first.
    fn first_place(&self) -> u8
        ensures range { result < 32 }
        ensures place { result ≡ first_place (ids_of self.now).last }
    {
        match self.last {
            None => 0,
            Some(last) => (last.value + 1) % 32,
        }
    }

    /// The free ID that is given next.
    fn next_free(&self) -> Option<InstanceId>
        ensures { MatchOption result (AreAllOut (ids_of self.now)) (λ id. IsNextFree (ids_of self.now) id.value) }
    {
        let first = self.first_place();
        for step in 0..32 {
            let id = (first + step) % 32;
            if !self.out[usize::from(id)] {
                return Some(InstanceId::new(id));
            }
        }
        None
    }
}
