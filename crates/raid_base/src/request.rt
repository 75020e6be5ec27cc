ghost use Rattle.std.specs.Prelude.{◌≡◌, IfOk};

use crate::list::Duplicate;
use crate::names::NoMemory;
use crate::pairs::Pairs;
use crate::sites::Vector;
use std::alloc::Global;

/// What a transaction asks to commit: the values that it read, in order; the values that it writes, in the
/// order of first write; and the vector that its home knew.
#[derive(Drop, Debug)]
pub struct Request {
    pub reads: Pairs,
    pub writes: Pairs,
    pub under: Vector,
}

impl Duplicate for Request {
    fn copy(&self, alloc: Global) -> Result<Request, NoMemory> {
        let reads = self.reads.copy(alloc)?;
        let writes = self.writes.copy(alloc)?;
        Ok(Request {
            reads,
            writes,
            under: self.under,
        })
    }
}
