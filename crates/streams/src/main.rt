// Streams with the answers that must come of them: each is run whole and by pieces, and compared byte for byte.
#![tactic(auto)]

ghost use Rattle.std.specs.Prelude.{◌<◌, IfSome};
ghost use Rattle.switch.specs.Respond.Status.{Unset};

use cioq::ENTRIES;
use fabric::Fabric;
use lend::Reserve;
use serve::{Form, ServeError, answers, answers_by_pieces};
use std::alloc::Global;
use std::fmt;
use switch::{Switch, best_box};
use vectors::{Vector, check_all};

// The sizes of the pieces by which a stream comes.
const SIZES: [usize; 5] = [1, 7, 66, 4096, 65536];

// How a stream came: by pieces of some size, or whole where that is 0.
#[derive(Clone, Copy)]
struct Pieces {
    size: usize,
}

impl fmt::Display for Pieces {
    fn fmt<W: fmt::Write>(&self, f: &mut fmt::Formatter<W>) -> fmt::Result {
        write!(f, " by {}", self.size)
    }
}

// The answers of a box, if it was made, to a stream that comes by pieces of some size.
fn by_pieces<S: Switch + Drop>(
    heap: Global,
    made: Option<S>,
    input: &[u8],
    size: usize,
) -> Result<Vec<u8>, ServeError>
    requires unset { IfSome made (λ s. S.Switch.shows s Unset) }
    requires some { 0 < size }
{
    let mut switch = made.ok_or(ServeError::TooLittleLent)?;
    Ok(answers_by_pieces(&mut switch, heap, Form::Frames, input, size)?)
}

// Runs a stream whole and by pieces.
fn check(rt: &HostRuntime, reserve: &mut Reserve, vector: &Vector) -> anyhow::Result<bool> {
    let heap = rt.alloc();
    let input = vector.input.as_slice();
    let whole = answers(heap, reserve.loan(), input);
    let mut good = vector.judge(rt, Pieces { size: 0 }, whole.as_deref())?;
    // Each answer goes before the next is asked for: they are as long as the stream.
    drop(whole);
    for size in SIZES {
        let way = Pieces { size };
        let best = by_pieces(heap, best_box(reserve.loan()), input, size);
        good &= vector.judge(rt, way, best.as_deref())?;
        drop(best);
        let real = by_pieces(heap, Fabric::new(reserve.loan()), input, size);
        good &= vector.judge(rt, way, real.as_deref())?;
    }
    Ok(good)
}

fn main(rt: HostRuntime) -> anyhow::Result<()> {
    let mut reserve = Reserve::new(rt.alloc(), ENTRIES)?;
    check_all(&rt, |vector| check(&rt, &mut reserve, vector))
}
