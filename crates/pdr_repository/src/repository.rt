//! The records of a terminus, however they are kept.
ghost use Rattle.std.specs.Prelude.{◌≡◌, ◌<◌, ◌+◌, ◌^◌, List, Some, length, slice_get};
ghost use Rattle.pdr_repository.specs.Records.{Entry, Places, bytes_by_place, handle_at};

/// Records by place.
pub(crate) trait Repository: Drop {
    // by place
    ghost records: { Self → List Entry };

    /// The place of the record that a handle means: 0 means the first.
    fn place_meant_by(&self, handle: u32) -> Option<usize>
        ensures { Places (records self.now) handle result };

    /// The handle at the following place, 0 at the last.
    fn next_handle(&self, place: usize) -> u32
        requires { place < length (records self.now) }
        ensures { result ≡ handle_at (records self.now) (place + 1) };

    /// The bytes of the record at a place.
    fn bytes_at(&self, place: usize) -> &[u8]
        requires { place < length (records self.now) }
        ensures bytes { slice_get (bytes_by_place (records self.now)) place ≡ Some result.now }
        ensures short { length result.now < 2 ^ 32 };
}
