//! Laws that hold of all records. The functions do nothing: their contracts are the laws.
ghost use Rattle.std.specs.Prelude.{◌≡◌, ℕ, List};
ghost use Rattle.pdr_record.specs.Records.{RecordValue, Spelled};

/// A byte list spells one record at most, and a record has one spelling.
pub fn one_spelling()
    ensures value { (r s : RecordValue) (bytes : List ℕ) → Spelled r bytes → Spelled s bytes → r ≡ s }
    ensures bytes { (r : RecordValue) (bytes others : List ℕ) → Spelled r bytes → Spelled r others → bytes ≡ others }
{}
