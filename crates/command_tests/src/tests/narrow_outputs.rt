//! An output that fails once it is full.
ghost use Rattle.std.specs.Prelude.{◌≡◌};

use net_plan::Counted;
use std::alloc::Global;
use std::io::{self, ErrorKind, Write};

/// A writer that takes as many bytes as it has room for, then fails, and counts its writes.
#[derive(Drop)]
pub struct Narrow {
    pub kept: Vec<u8>,
    pub room: usize,
    pub writes: usize,
}

impl Write for Narrow {
    fn write(&mut self, buf: &[u8]) -> io::Result<usize> {
        self.writes = self.writes.saturating_add(1);
        let taken = buf.len().min(self.room);
        if taken == 0 {
            return Err(io::Error::from(ErrorKind::BrokenPipe));
        }
        self.kept.extend_from_slice(&buf[..taken])?;
        self.room -= taken;
        Ok(taken)
    }

    fn flush(&mut self) -> io::Result<()> {
        Ok(())
    }
}

/// A sink with room for so many bytes.
pub fn narrow_output(alloc: Global, room: usize) -> Counted<Narrow>
    ensures { result.failures ≡ 0 }
{
    Counted::new(Narrow {
        kept: Vec::new(alloc),
        room,
        writes: 0,
    })
}
