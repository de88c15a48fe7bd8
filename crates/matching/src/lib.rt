// The finding of a stable choice, over a table of the first waiting cell of each pair of an input and an output.
#![tactic(auto)]

ghost use Rattle.std.specs.Prelude.{◌≡◌, ℕ, ◌<◌, ◌≤◌, true, not, ◌&&◌, ◌||◌, if◌then◌else◌, ◌==◌, nat_lt, slice_index};
ghost use Rattle.crossbox.specs.Box.{Box};
ghost use Rattle.bits.specs.Bits.{is_set};
ghost use Rattle.matching.specs.Table.{Ties, Finds};
ghost use Rattle.matching.specs.Asking.{names, Small, key_of, Earliest, prefers_in};

mod table;

use bits::{lowest, with, without, without_lowest};
use crossbox::Arrival;

// How many inputs and how many outputs the table has.
const LINES: usize = 32;

// The first waiting cell of each pair of an input i and an output o: `waiting` has bit i of its number o set where there is one,
// `slots` its slot at o * 32 + i, and `places` how many stand ahead of it in the list of its input at i * 32 + o.
// Three arrays, and not one of pairs: outputs read the slots of their inputs in a row, and inputs the places of their outputs.
#[derive(Drop)]
pub struct Firsts {
    pub waiting: [u32; 32],
    pub slots: [u32; 1024],
    pub places: [u16; 1024],
}

// What is found: for each input the output for which it sends a cell, and how often outputs have asked.
#[derive(Clone, Copy)]
pub struct Found {
    pub choice: [Arrival; 32],
    pub asks: u16,
}

// Of what an input is asked for and what it kept: the one that it keeps now, and the one that it refuses.
#[derive(Clone, Copy)]
struct Reply {
    keeps: Arrival,
    refuses: Arrival,
}

// A number for the first cell of input i for output o that is smaller for an earlier cell.
fn key(slots: &[u32; 1024], o: u8, i: u8) -> u64
    requires { (o < 32) × (i < 32) }
    ensures { result ≡ key_of slots.now o i }
{
    slots[o as usize * LINES + i as usize] as u64 * LINES as u64 + i as u64
}

// The one of these inputs whose first cell for output o is the earliest.
fn earliest(slots: &[u32; 1024], o: u8, inputs: u32) -> u8
    requires { (o < 32) × (0 < inputs) }
    ensures { Earliest slots.now o inputs result }
{
    let first = lowest(inputs);
    let mut least = key(slots, o, first);
    let mut rest = without_lowest(inputs);
    // The bits of a set, one by one: an iterator type for this one loop is no plainer.
    while rest != 0 {
        least = least.min(key(slots, o, lowest(rest)));
        rest = without_lowest(rest);
    }
    (least % LINES as u64) as u8
}

// What input i answers when output o asks and `before` is what it kept: it keeps what stands first in its list.
fn answer(places: &[u16; 1024], i: u8, o: u8, before: Arrival) -> Reply
    requires { (i < 32) × ((o < 32) × (Small before)) }
    ensures keeps { result.keeps ≡ (if prefers_in places.now i o before then Arrival.For o else before) }
    ensures refuses { result.refuses ≡ (if prefers_in places.now i o before then before else Arrival.For o) }
{
    match before {
        Arrival::Nothing => Reply {
            keeps: Arrival::For(o),
            refuses: Arrival::Nothing,
        },
        Arrival::For(d) => {
            if places[i as usize * LINES + o as usize] < places[i as usize * LINES + d as usize] {
                Reply {
                    keeps: Arrival::For(o),
                    refuses: Arrival::For(d),
                }
            } else {
                Reply {
                    keeps: Arrival::For(d),
                    refuses: Arrival::For(o),
                }
            }
        }
    }
}

// Outputs that ask, with output o among them if it has inputs left to ask.
fn with_asker(asking: u32, o: u8, inputs: u32) -> u32
    requires { o < 32 }
    ensures { (p : ℕ) → is_set result p ≡ ((p == o && not (inputs == 0)) || is_set asking p) }
{
    if inputs == 0 { asking } else { with(asking, o) }
}

// The outputs that ask at first: those of the first n for which any cell waits.
fn askers(waiting: &[u32; 32], n: u8) -> u32
    requires { n ≤ 32 }
    ensures { (p : ℕ) → is_set result p ≡ (nat_lt p n && not (slice_index waiting.now p == 0)) }
{
    let mut asking = 0;
    for (o, &inputs) in (0..n).zip(waiting) {
        asking = with_asker(asking, o, inputs);
    }
    asking
}

// The outputs that ask when output o has been answered: o no longer, and the one that was refused if it has inputs left to ask.
fn askers_after(asking: u32, o: u8, refused: Arrival, askable: &[u32; 32]) -> u32
    requires { (o < 32) × ((is_set asking o ≡ true) × (Small refused)) }
    ensures { (p : ℕ) → is_set result p ≡ ((names p refused && not (slice_index askable.now p == 0)) || (not (p == o) && is_set asking p)) }
{
    let others = without(asking, o);
    match refused {
        Arrival::Nothing => others,
        Arrival::For(p) => with_asker(others, p, askable[p as usize]),
    }
}

// The finding: outputs ask, the lowest that is not content first, each for the earliest cell at the inputs that have not refused it;
// an input keeps what stands first in its list, and refuses the others.
pub fn find(firsts: &Firsts, n: u8) -> Found
    requires { (n ≤ 32) × (((b : Box) × Ties firsts.now n b)) }
    ensures { (b : Box) → Ties firsts.now n b → Finds result n b }
{
    let mut choice = [Arrival::Nothing; 32];
    let mut askable = firsts.waiting;
    let mut asking = askers(&firsts.waiting, n);
    let mut asks = 0u16;
    'asks: loop {
        if asking == 0 {
            break 'asks;
        }
        let o = lowest(asking);
        let i = earliest(&firsts.slots, o, askable[o as usize]);
        let reply = answer(&firsts.places, i, o, choice[i as usize]);
        choice[i as usize] = reply.keeps;
        askable[o as usize] = without(askable[o as usize], i);
        asking = askers_after(asking, o, reply.refuses, &askable);
        asks += 1;
    }
    Found { choice, asks }
}
