//! Vectors in which jobs carried variables, kept for their room.

ghost use Rattle.std.specs.Prelude.{◌≡◌, []};

use ooo_code::Cells;
use std::alloc::{AllocError, Global};
use std::mem;

/// Of each process the vector in which its last job carried the variables that it might change. The next one has its room.
#[derive(Drop)]
pub(crate) struct Spares {
    of_processes: Vec<Vec<(u32, Cells)>>,
}

impl Spares {
    /// Those of so many processes, without room yet.
    ///
    /// # Errors
    ///
    /// Only where memory runs out.
    pub(crate) fn make(alloc: Global, processes: usize) -> Result<Spares, AllocError> {
        let mut of_processes = Vec::with_capacity(alloc, processes)?;
        for _spare in 0..processes {
            of_processes.push_reserved(Vec::new(alloc));
        }
        Ok(Spares { of_processes })
    }

    /// A vector with nothing in it, with the room that was kept of process `p`.
    pub(crate) fn take(&mut self, alloc: Global, p: u32) -> Vec<(u32, Cells)>
        ensures { result.items ≡ [] }
    {
        let mut room = Vec::new(alloc);
        if let Some(kept) = self.of_processes.get_mut(p as usize) {
            mem::swap(kept, &mut room);
        }
        room.clear();
        room
    }

    /// Keeps the room of a vector for process `p`.
    pub(crate) fn keep(&mut self, p: u32, used: Vec<(u32, Cells)>) {
        if let Some(kept) = self.of_processes.get_mut(p as usize) {
            *kept = used;
        }
    }
}
