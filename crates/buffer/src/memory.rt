// The lent memory of a box with ROWS rows of room for ROOM places each.
ghost use Rattle.std.specs.Prelude.{◌≡◌, ℕ, ◌+◌, ◌-◌, ◌*◌, ◌<◌, ◌≤◌, true, false, [], ◌∷◌, ◌++◌, length, replicate, MatchOption, not, ◌==◌, ◌≢◌, nat_le, slice_index_or};
ghost use Rattle.places.specs.Head.{cell_of, vacant};
ghost use Rattle.words.specs.Writing.{appended};
ghost use Rattle.words.specs.Answer.{leaving};
ghost use Rattle.buffer.specs.Leaving.{first_of, without_first};
ghost use Rattle.buffer.specs.Memory.{Mem, view, Sound, lent_by, enough, fresh, put as put_cell, remove as remove_cell, carry as carry_cell, reset as reset_places, place_at, row_length, head_at};

use crate::rows::{move_down, move_up, number, vacate};
use crate::{BODY, Free, Head, Loan, PLACES};
use crossbox::Cell;
use words::{ANSWER_BYTES, Answer, DEPARTURE_BYTES, NONE};

// Whether so many rows of such a room fit a length.
fn rows_fit(count: usize, room: usize, len: usize) -> bool
    ensures { result ≡ nat_le (count * room) len }
{
    count.checked_mul(room).is_some_and(|size| size <= len)
}

// The four slices are cut to the size of the rows and places, and those of a `Loan` are as long as the caller has them.
// `Sound` stands in the clauses: a ghost field would have to hold in the middle of a put too, and a model of a struct with const
// parameters that holds references gets no proof.
#[derive(Drop)]
pub struct Memory<'a, const ROWS: usize, const ROOM: usize> {
    heads: &'a mut [Head],
    cells: &'a mut [[u8; BODY]],
    rows: &'a mut [u16],
    spare: &'a mut [u16],
    lens: [u16; ROWS],
    free: Free,
    places: u16,
}

impl<'a, const ROWS: usize, const ROOM: usize> Memory<'a, ROWS, ROOM> {
    // A box's memory over what the caller lends, with no place in use yet; None where that is too little.
    pub fn new(loan: Loan<'a>) -> Option<Memory<'a, ROWS, ROOM>>
        ensures { MatchOption result (enough ROWS ROOM (lent_by loan.entry) ≡ false) (λ m. (enough ROWS ROOM (lent_by loan.entry) ≡ true) × (view m ≡ fresh ROWS ROOM (lent_by loan.entry))) }
    {
        let Loan {
            heads,
            cells,
            rows,
            spare,
        } = loan;
        let long = rows_fit(ROWS, ROOM, rows.len());
        if !long || heads.len() < PLACES || cells.len() < PLACES || spare.len() < PLACES {
            return None;
        }
        Some(Memory {
            heads,
            cells,
            rows,
            spare,
            lens: [0; ROWS],
            free: Free { len: 0 },
            places: 0,
        })
    }

    // Makes every row empty, and so many places free.
    pub fn reset(&mut self, places: u16)
        requires sound { Sound (view self.old) }
        requires reach { (places ≤ 8224) × (places ≤ length (view self.old).heads) × (places ≤ length (view self.old).spare) }
        ensures { view self.new ≡ reset_places places (view self.old) }
    {
        vacate(&mut self.heads[0..places as usize]);
        number(&mut self.spare[0..places as usize]);
        let empty = [0u16; ROWS];
        self.lens = empty;
        self.free = Free { len: places };
        self.places = places;
    }

    // How many places stand in a row.
    pub fn len(&self, row: u8) -> usize
        requires { row < ROWS }
        ensures { result ≡ row_length (view self.now) row }
    {
        self.lens[row as usize] as usize
    }

    // The cell behind the first k of a row.
    #[tactic(auto, using(crate::proofs::Safety::within_rows, crate::proofs::Safety::place_in))]
    pub fn cell(&self, row: u8, k: usize) -> Cell
        requires sound { Sound (view self.now) }
        requires within { (row < ROWS) × (k < row_length (view self.now) row) }
        ensures { result ≡ cell_of (head_at (view self.now) (place_at row k (view self.now))) }
    {
        let place = self.rows[row as usize * ROOM + k];
        self.heads[place as usize].cell()
    }

    // The bytes of that cell.
    #[tactic(auto, using(crate::proofs::Safety::within_rows, crate::proofs::Safety::place_in))]
    pub fn body(&self, row: u8, k: usize) -> &[u8; BODY]
        requires sound { Sound (view self.now) }
        requires within { (row < ROWS) × (k < row_length (view self.now) row) }
        ensures { result.now ≡ slice_index_or (view self.now).cells (place_at row k (view self.now)) [] }
    {
        let place = self.rows[row as usize * ROOM + k];
        let cells = &*self.cells;
        &cells[place as usize]
    }

    // Puts a cell with its bytes behind the first k of a row.
    #[tactic(auto, using(crate::proofs::Safety::within_rows, crate::proofs::Safety::place_in, crate::proofs::Safety::row_end, crate::proofs::Safety::row_few, crate::proofs::Safety::next_in))]
    pub fn put(&mut self, row: u8, k: usize, cell: Cell, body: [u8; BODY])
        requires sound { Sound (view self.old) }
        requires within { (row < ROWS) × (k ≤ row_length (view self.old) row) × (row_length (view self.old) row < ROOM) }
        requires left { 0 < (view self.old).free }
        ensures { view self.new ≡ put_cell row k cell body (view self.old) }
    {
        let (free, top) = self.free.taken();
        let place = self.spare[top];
        self.heads[place as usize] = Head::of(cell, u16::from(row) + 1);
        self.cells[place as usize] = body;
        let start = row as usize * ROOM;
        let len = self.lens[row as usize];
        move_up(&mut self.rows[start + k..start + len as usize + 1], place);
        self.lens[row as usize] = len + 1;
        self.free = free;
    }

    // Lets go what stands behind the first k of a row, and makes its place free.
    #[tactic(auto, using(crate::proofs::Safety::within_rows, crate::proofs::Safety::place_in, crate::proofs::Safety::row_end, crate::proofs::Safety::row_few, crate::proofs::Safety::next_in))]
    pub fn remove(&mut self, row: u8, k: usize)
        requires sound { Sound (view self.old) }
        requires within { (row < ROWS) × (k < row_length (view self.old) row) }
        ensures { view self.new ≡ remove_cell row k (view self.old) }
    {
        let start = row as usize * ROOM;
        let len = self.lens[row as usize];
        let place = self.rows[start + k];
        move_down(&mut self.rows[start + k..start + len as usize]);
        self.lens[row as usize] = len - 1;
        self.heads[place as usize] = Head::VACANT;
        let (free, top) = self.free.given();
        self.spare[top] = place;
        self.free = free;
    }

    // Writes what stands first in a row, or the byte for none, and lets it go; whether a cell left.
    pub fn leave(&mut self, row: u8, answer: &mut Answer) -> bool
        requires sound { Sound (view self.old) }
        requires within { row < ROWS }
        requires room { answer.old.len + DEPARTURE_BYTES ≤ ANSWER_BYTES }
        ensures after { view self.new ≡ without_first row (view self.old) }
        ensures answer { answer.new ≡ appended (leaving (first_of row (view self.old))) answer.old }
        ensures short { answer.new.len ≤ answer.old.len + DEPARTURE_BYTES }
        ensures left { result ≡ not (row_length (view self.old) row == 0) }
    {
        if self.len(row) == 0 {
            answer.push(NONE);
            return false;
        }
        let cell = self.cell(row, 0);
        answer.push_departure(cell, self.body(row, 0));
        self.remove(row, 0);
        true
    }

    // Carries what stands behind the first k of one row behind the first j of another.
    #[tactic(auto, using(crate::proofs::Safety::within_rows, crate::proofs::Safety::place_in, crate::proofs::Safety::row_end, crate::proofs::Safety::row_few, crate::proofs::Safety::next_in))]
    pub fn carry(&mut self, from: u8, k: usize, to: u8, j: usize)
        requires sound { Sound (view self.old) }
        requires within { (from < ROWS) × (k < row_length (view self.old) from) }
        requires beyond { (to < ROWS) × (j ≤ row_length (view self.old) to) × (row_length (view self.old) to < ROOM) }
        requires apart { to ≢ from }
        ensures { view self.new ≡ carry_cell from k to j (view self.old) }
    {
        let start = from as usize * ROOM;
        let len = self.lens[from as usize];
        let place = self.rows[start + k];
        move_down(&mut self.rows[start + k..start + len as usize]);
        let end = to as usize * ROOM;
        let more = self.lens[to as usize];
        move_up(&mut self.rows[end + j..end + more as usize + 1], place);
        self.lens[from as usize] = len - 1;
        self.lens[to as usize] = more + 1;
        let head = self.heads[place as usize];
        self.heads[place as usize] = Head::of(head.cell(), u16::from(to) + 1);
    }
}
