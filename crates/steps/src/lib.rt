// The steps of the real box as functions on its memory. Each function here has a law of them for its contract. `cioq` has the same
// laws for rows that begin at the front of their room; these are for rows that begin anywhere, on which no box stands yet.
#![tactic(auto)]

ghost use Rattle.steps.specs.Choice.{JudgedIsStable};
ghost use Rattle.steps.specs.Named.{StableIsNamed};

mod kept;

pub use kept::{
    arrivals_stay_within, departures_stay_within, places_keep_their_bytes, settings_stay_within,
    transfer_stays_within,
};

// A choice is taken just where each cell that it names waits, and it is stable.
pub fn taken_choices_are_stable()
    ensures { JudgedIsStable }
{}

// Of a box in order, a choice by input names just the cells of any stable choice, and each of them waits.
pub fn stable_choices_are_named()
    ensures { StableIsNamed }
{}
