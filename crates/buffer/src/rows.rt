// Parts of rows of places.
ghost use Rattle.std.specs.Prelude.{◌≡◌, ℕ, ◌-◌, ◌<◌, ◌≤◌, ◌∷◌, ◌++◌, length, replicate};
ghost use Rattle.std.specs.List.{range_with_len};
ghost use Rattle.places.specs.Head.{vacant};
ghost use Rattle.buffer.specs.Rows.{moved_up, moved_down};

use crate::Head;

// Moves a part of a row up by one, with a place at its front; its last value is given up.
pub fn move_up(part: &mut [u16], place: u16)
    ensures { part.new ≡ moved_up place part.old }
{
    if let Some(kept) = part.len().checked_sub(1) {
        part.copy_within(..kept, 1);
        part[0] = place;
    }
}

// Moves a part of a row down by one, over its first value; its last value then stands twice.
pub fn move_down(part: &mut [u16])
    requires { 0 < length part.old }
    ensures { part.new ≡ moved_down part.old }
{
    part.copy_within(1.., 0);
}

// Makes every place of a part free.
pub fn vacate(heads: &mut [Head])
    ensures { heads.new ≡ replicate (length heads.old) vacant }
{
    heads.fill(Head::VACANT);
}

// Numbers the places of a part from 0 on.
pub fn number(spare: &mut [u16])
    requires { length spare.old ≤ 8224 }
    ensures { spare.new ≡ range_with_len 0 (length spare.old) }
{
    for (place, x) in spare.iter_mut().enumerate() {
        *x = place as u16;
    }
}
