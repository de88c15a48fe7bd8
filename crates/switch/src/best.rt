// The ideal box as a switch.
ghost use Rattle.std.specs.Prelude.{◌≡◌, true, false, MatchOption};
ghost use Rattle.buffer.specs.Memory.{lent_by, enough, fresh};
ghost use Rattle.buffer.specs.Lent.{lent_to};
ghost use Rattle.switch.specs.Respond.Status.{Unset};
ghost use Rattle.switch.specs.Best.{Shows};

use crate::Switch;
use buffer::Loan;
use ideal::IdealBox;
use words::Answer;

// An ideal box over what the caller lends, whatever that holds; None where it is too little.
pub fn best_box(loan: Loan<'_>) -> Option<IdealBox<'_>>
    ensures { MatchOption result (enough 32 256 (lent_by loan.entry) ≡ false) (λ b. (enough 32 256 (lent_by loan.entry) ≡ true) × Shows b Unset × (b.mem ≡ fresh 32 256 (lent_by loan.entry))) }
{
    IdealBox::new(loan)
}

impl Switch for IdealBox<'_> {
    ghost shows = { Shows };

    ghost lent = { λ b. lent_to b.mem };

    ghost width = { λ b. 256 };

    fn lines(&self) -> u8 {
        IdealBox::lines(self)
    }

    fn slots(&self) -> u64 {
        IdealBox::slots(self)
    }

    fn begin(&mut self, lines: u8) {
        IdealBox::begin(self, lines);
    }

    fn slot(&mut self, lines: &[u8], answer: &mut Answer) {
        IdealBox::slot(self, lines, answer);
    }
}
