//! The header of a record that lies in two pieces.
ghost use Rattle.std.specs.Prelude.{◌≡◌, ◌+◌, ◌++◌, slice_index};
ghost use Rattle.pdr_repository.specs.Records.{handle_in, data_length_in};

use pdr_record::HEADER_LENGTH;

/// A byte of two pieces, 0 past the end.
fn byte_of(front: &[u8], back: &[u8], index: usize) -> u8
    ensures { result ≡ slice_index (front.now ++ back.now) index }
{
    if index < front.len() {
        return front[index];
    }
    let rest = index - front.len();
    if rest < back.len() { back[rest] } else { 0 }
}

/// The handle in the header.
pub(super) fn handle_of(front: &[u8], back: &[u8]) -> u32
    ensures { result ≡ handle_in (front.now ++ back.now) }
{
    let high = u32::from(byte_of(front, back, 2)) + 256 * u32::from(byte_of(front, back, 3));
    u32::from(byte_of(front, back, 0)) + 256 * (u32::from(byte_of(front, back, 1)) + 256 * high)
}

/// The data length in the header.
pub(super) fn data_length_of(front: &[u8], back: &[u8]) -> u16
    ensures { result ≡ data_length_in (front.now ++ back.now) }
{
    u16::from(byte_of(front, back, 8)) + 256 * u16::from(byte_of(front, back, 9))
}

/// How many bytes a record has, as its header says, which is in its first part.
pub(super) fn record_length(first_part: &[u8]) -> usize
    ensures { result ≡ 10 + data_length_in first_part.now }
{
    HEADER_LENGTH + usize::from(data_length_of(&[], first_part))
}
