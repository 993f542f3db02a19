//! Laws of the definitions. The functions do nothing: their contracts are the laws.
ghost use Rattle.std.specs.Prelude.{◌≡◌, ℕ, List};
ghost use Rattle.pdr_repository.{specs.Crc.{IsCrc}, specs.Parts.{OneAnswer}, specs.LentParts.{OneLentPart}, specs.Walks.{CollectsOnce, EveryWalkCollects}, specs.Walkers.{EveryRequestIsAnswered}};

/// A list of bytes has one check byte only.
pub fn one_check_byte()
    ensures { (bytes : List ℕ) (a b : ℕ) → IsCrc bytes a → IsCrc bytes b → a ≡ b }
{}

/// Over a lawful list a request for a part of a record has one answer only.
pub fn one_answer()
    ensures { OneAnswer }
{}

/// Over a lawful list one answer only is right when a part is lent: one part, or none.
pub fn one_lent_part()
    ensures { OneLentPart }
{}

/// Exchanges collect one list of records, and have one beginning of a record under way.
pub fn collects_once()
    ensures { CollectsOnce }
{}

/// Every walk over a lawful list has collected a beginning of its records, each once and by place, and all of them once
/// it is finished. It is finished after exactly as many exchanges as the records have parts.
pub fn walks_collect_all()
    ensures { EveryWalkCollects }
{}

/// What a terminus answers to a request of a walker is an answer to it, under the same instance ID.
pub fn requests_are_answered()
    ensures { EveryRequestIsAnswered }
{}
