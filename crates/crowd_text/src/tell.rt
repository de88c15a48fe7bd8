// A few lines of text for each word: the first word of a line says what it is. No methods of `Telling`: each reads a crowd or a row of
// bytes and writes the text, and would have to say that it leaves both boxes with their lenders.
ghost use Rattle.std.specs.Prelude.{◌<◌, ◌≤◌};

use crossbox::Cell;
use crowd::{Crowd, differs, next_part};
use std::alloc::AllocError;
use std::fmt::Write;
use words::{Answer, MOST_LINES};

// The cells that a word transfers, by input, if it is a choice that is taken.
pub(crate) fn picks_of(crowd: &Crowd<'_>, word: &[u8]) -> [Option<Cell>; MOST_LINES] {
    let mut picks = [None; MOST_LINES];
    let [_, lines @ ..] = word else {
        return picks;
    };
    if crowd.lines() == 0 {
        return picks;
    }
    let Some(choice) = crowd.choice_of(lines) else {
        return picks;
    };
    // By number: it is passed on too, and a chain of zips would have to say that it is below the number of lines.
    for input in 0..crowd.lines() {
        picks[input as usize] = crowd.picked(input, choice[input as usize]);
    }
    picks
}

// The cells that were transferred.
pub(crate) fn tell_over(
    picks: &[Option<Cell>; MOST_LINES],
    out: &mut String,
) -> Result<(), AllocError> {
    for (input, pick) in picks.iter().enumerate() {
        if let Some(cell) = pick {
            writeln!(out, "over {input} {} {}", cell.output, cell.slot)?;
        }
    }
    Ok(())
}

// The bytes of an answer behind its kind.
pub(crate) fn departures(answer: &Answer) -> &[u8] {
    answer.as_bytes().get(1..).unwrap_or(&[])
}

// What leaves by each output, by an answer behind its kind.
pub(crate) fn tell_leaves(n: u8, answer: &[u8], out: &mut String) -> Result<(), AllocError> {
    let mut rest = answer;
    for output in 0..n {
        let part = next_part(rest);
        if let [input, a, b, c, d, ..] = part.bytes {
            let slot = u32::from_be_bytes([*a, *b, *c, *d]);
            writeln!(out, "leaves {output} {input} {slot}")?;
        }
        rest = part.rest;
    }
    Ok(())
}

// Where two answers, behind their kinds, tell of other departures.
pub(crate) fn tell_differs(
    n: u8,
    real: &[u8],
    ideal: &[u8],
    out: &mut String,
) -> Result<(), AllocError>
    requires { n ≤ 32 }
{
    let found = differs(real, ideal, n);
    if !found.contains(&true) {
        return writeln!(out, "same");
    }
    for (output, differ) in found.iter().enumerate() {
        if *differ {
            writeln!(out, "differs {output}")?;
        }
    }
    Ok(())
}

// The cells that wait at an input.
fn tell_list(crowd: &Crowd<'_>, input: u8, out: &mut String) -> Result<(), AllocError>
    requires { input < crowd.now.real.lines }
{
    for k in 0..crowd.waiting(input) {
        let cell = crowd.waiting_cell(input, k);
        let earlier = crowd.earlier_stored(cell);
        writeln!(
            out,
            "waits {input} {} {} before {k} earlier {earlier}",
            cell.output, cell.slot
        )?;
    }
    Ok(())
}

// The cells that wait, by input and place.
pub(crate) fn tell_waits(crowd: &Crowd<'_>, out: &mut String) -> Result<(), AllocError> {
    for input in 0..crowd.lines() {
        tell_list(crowd, input, out)?;
    }
    Ok(())
}

// A slot that was taken: its number, and whose cells it turned away.
pub(crate) fn tell_slot(crowd: &Crowd<'_>, out: &mut String) -> Result<(), AllocError> {
    writeln!(out, "slot {}", crowd.slots().saturating_sub(1))?;
    for input in 0..crowd.lines() {
        if crowd.turned_away(input) {
            writeln!(out, "away {input}")?;
        }
    }
    Ok(())
}

// Settings that were taken.
pub(crate) fn tell_settings(crowd: &Crowd<'_>, out: &mut String) -> Result<(), AllocError> {
    writeln!(out, "settings {}", crowd.lines())
}
