// Memory from the heap, to lend to a box.
#![tactic(auto)]

ghost use Rattle.std.specs.Prelude.{◌≡◌, IfOk};
ghost use Rattle.buffer.specs.Memory.{lent_by};
ghost use Rattle.lend.specs.Reserve.{holds, IsAsLong};

use buffer::{BODY, Head, Loan, PLACES};
use std::alloc::{AllocError, Global};

// Memory that a program holds for one box.
#[derive(Drop)]
pub struct Reserve {
    heads: Vec<Head>,
    cells: Vec<[u8; BODY]>,
    rows: Vec<u16>,
    spare: Vec<u16>,
}

impl Reserve {
    // All places that a box can have, and so many entries of rows. What they hold means nothing to a box.
    pub fn new(heap: Global, rows: usize) -> Result<Reserve, AllocError>
        ensures { IfOk result (λ r. IsAsLong rows (holds r)) }
    {
        Ok(Reserve {
            heads: vec![in heap; Head::VACANT; PLACES]?,
            cells: vec![in heap; [0u8; BODY]; PLACES]?,
            rows: vec![in heap; 0u16; rows]?,
            spare: vec![in heap; 0u16; PLACES]?,
        })
    }

    // Lends all of it.
    pub fn loan(&mut self) -> Loan<'_>
        ensures { lent_by result ≡ holds self.old }
    {
        Loan {
            heads: &mut self.heads,
            cells: &mut self.cells,
            rows: &mut self.rows,
            spare: &mut self.spare,
        }
    }
}

#[cfg(test)]
mod tests {
    use super::*;
    use std::test::Fail;

    #[test]
    fn all_places_and_the_entries_are_there(rt: HostRuntime) -> Result<(), Fail> {
        let mut reserve = Reserve::new(rt.alloc(), 4)?;
        let loan = reserve.loan();
        assert_eq!(rt; loan.heads.len(), PLACES);
        assert_eq!(rt; loan.cells.len(), PLACES);
        assert_eq!(rt; loan.rows.len(), 4);
        assert_eq!(rt; loan.spare.len(), PLACES);
        Ok(())
    }
}
