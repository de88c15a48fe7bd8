// Streams with the lines that must come of them: each is run, and compared byte for byte.
#![tactic(auto)]

use crowd::Crowd;
use crowd_text::Telling;
use lend::Reserve;
use serve::{Form, ServeError, Service};
use std::alloc::Global;
use switch::best_box;
use vectors::{Vector, check_all};

// The lines of a whole stream.
fn tell_whole(
    heap: Global,
    reserve: &mut Reserve,
    beside: &mut Reserve,
    input: &[u8],
) -> Result<String, ServeError> {
    let mut crowd = Crowd::new(reserve.loan()).ok_or(ServeError::TooLittleLent)?;
    let mut ideal = best_box(beside.loan()).ok_or(ServeError::TooLittleLent)?;
    let mut telling = Telling::new(&mut crowd, &mut ideal, Form::Frames, heap);
    let used = telling.serve(input)?;
    telling.end(&input[used..])?;
    Ok(telling.into_text())
}

// Runs a stream.
fn check(
    rt: &HostRuntime,
    reserve: &mut Reserve,
    beside: &mut Reserve,
    vector: &Vector,
) -> anyhow::Result<bool> {
    let text = tell_whole(rt.alloc(), reserve, beside, &vector.input);
    vector.judge(rt, "", text.as_ref().map(|text| text.as_bytes()))
}

fn main(rt: HostRuntime) -> anyhow::Result<()> {
    let mut reserve = Reserve::new(rt.alloc(), cioq::ENTRIES)?;
    let mut beside = Reserve::new(rt.alloc(), ideal::ENTRIES)?;
    check_all(&rt, |vector| check(&rt, &mut reserve, &mut beside, vector))
}
