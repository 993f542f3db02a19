//! What answers PLDM requests for its records (DSP0248, section 26.2).
ghost use Rattle.std.specs.Prelude.{◌≡◌, ℕ, List, [], false};
ghost use Rattle.pdr_repository.{specs.Records.{Entry}, specs.Answers.{Answers, answer_of}};

use arrayvec::ArrayVec;

/// The most bytes of an answer.
pub const MAX_ANSWER: usize = 4096;

/// A terminus: a TID, and records by place.
pub trait Terminus: Drop {
    ghost tid: { Self → ℕ };

    // by place
    ghost records: { Self → List Entry };

    /// Writes the answer to the bytes of a request into `out` and says true. Where they are no PLDM request that is to
    /// be answered it says false, leaves `out` empty and changes nothing. It takes no memory.
    ///
    /// It knows SetTID, GetTID and GetPLDMTypes (DSP0240) and GetPDR (DSP0248). Only SetTID changes the TID, and
    /// nothing changes the records.
    fn answer(&mut self, request: &[u8], out: &mut ArrayVec<u8, MAX_ANSWER>) -> bool
        ensures answered { Answers (tid self.old) (records self.old) request.now (answer_of result out.new.items) (tid self.new) }
        ensures silent { result ≡ false → out.new.items ≡ [] }
        ensures kept { records self.new ≡ records self.old };
}

/// A box of a terminus answers as what is in it.
impl Terminus for Box<dyn Terminus> {
    ghost tid = { λ b. (Terminus-box b).tid b.value };

    ghost records = { λ b. (Terminus-box b).records b.value };

    fn answer(&mut self, request: &[u8], out: &mut ArrayVec<u8, MAX_ANSWER>) -> bool {
        (**self).answer(request, out)
    }
}
