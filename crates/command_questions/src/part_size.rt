//! How much of a record one request asks for.
ghost use Rattle.std.specs.Prelude.{◌≡◌, ◌↔◌, ◌≤◌, IsSome, IfSome};

/// How many bytes of a record one GetPDR request asks for (DSP0248): 8 to 4079.
#[derive(Clone, Copy)]
pub struct PartSize {
    pub bytes: u16,
    pub ghost least: { 8 ≤ bytes },
    pub ghost most: { bytes ≤ 4079 },
}

impl PartSize {
    /// The part size of so many bytes, if a part can have them.
    pub fn of(bytes: u16) -> Option<PartSize>
        ensures some { IsSome result ↔ (8 ≤ bytes) × (bytes ≤ 4079) }
        ensures bytes { IfSome result (λ part. part.bytes ≡ bytes) }
    {
        if bytes < 8 || bytes > 4079 {
            return None;
        }
        Some(PartSize { bytes })
    }

    /// How many bytes a part has at most.
    pub fn bytes(self) -> u16
        ensures { result ≡ self.bytes }
    {
        self.bytes
    }
}
