//! The block of bytes behind all slots.
ghost use Rattle.std.specs.Prelude.{◌≡◌, ◌≤◌, ◌+◌, ◌++◌, length, take, drop, vec_capacity};

/// Writes bytes into the block from an index on.
pub(super) fn write(block: &mut Vec<u8>, start: usize, bytes: &[u8])
    requires { start + length bytes.now ≤ length block.old.items }
    ensures items { block.new.items
        ≡ take start block.old.items ++ (bytes.now ++ drop (start + length bytes.now) block.old.items) }
    ensures len { length block.new.items ≡ length block.old.items }
    ensures capacity { vec_capacity block.new ≡ vec_capacity block.old }
{
    let end = start + bytes.len();
    block[start..end].copy_from_slice(bytes);
}
