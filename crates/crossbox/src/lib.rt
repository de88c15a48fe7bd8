// The model's own types, and one function for each theorem of the model: its contract is the theorem.
#![tactic(auto)]

ghost use Rattle.std.specs.Prelude.{◌≡◌};
ghost use Rattle.crossbox.specs.Cells.{earlier};
ghost use Rattle.crossbox.specs.Machine.{MachineIsQueues};
ghost use Rattle.crossbox.specs.Matching.{FoundIsStable, FindingEnds, EndedStays, AsksAreFew, FoundInRun, FoundInRunAgain};
ghost use Rattle.crossbox.specs.Promise.{MoreEarlier, StoresRise, StoresRiseTransferred, SameHeld, SameHeldArriving, SameHeldTransferred, SameHeldDeparted, SameRejected, PairsInOrder, PairsInOrderAgain, SameDepartures, Matched, MatchedAgain, Main};
ghost use Rattle.crossbox.specs.Shape.{EarliestIsFirst, DepartDropsFirst};
ghost use Rattle.crossbox.specs.Slack.{ArriveSlack, TransferSlack, DepartSlack};

// The bytes that a cell carries.
pub const BODY: usize = 64;

// What arrives by one input in a slot: nothing, or a cell for an output.
// Not an Option<u8>: what arrives is an enum of its own by a rule of the project.
#[derive(Clone, Copy, PartialEq, Eq)]
pub enum Arrival {
    Nothing,
    For(u8),
}

// A cell: the slot in which it arrived, the input by which, and the output for which.
#[derive(Clone, Copy, PartialEq, Eq)]
pub struct Cell {
    pub slot: u32,
    pub input: u8,
    pub output: u8,
}

// Whether a cell is earlier than another, both being for one output.
pub fn is_earlier(a: Cell, b: Cell) -> bool
    ensures { result ≡ earlier a b }
{
    (a.slot, a.input) < (b.slot, b.input)
}

// The ideal box as a plain machine has, after any slots, the queues that the definitions speak of.
pub fn machine_has_the_queues()
    ensures { MachineIsQueues }
{}

// The earliest cell of a store that rises is its first.
pub fn earliest_is_first()
    ensures { EarliestIsFirst }
{}

// From a store that rises, departing drops the first cell.
pub fn departing_drops_the_first()
    ensures { DepartDropsFirst }
{}

// Arriving takes at most one from the slack of waiting cells.
pub fn arriving_takes_slack()
    ensures { ArriveSlack }
{}

// Transferring a stable choice adds at least one to the slack.
pub fn transferring_adds_slack()
    ensures { TransferSlack }
{}

// Departing takes at most one from the slack.
pub fn departing_takes_slack()
    ensures { DepartSlack }
{}

// After every slot each waiting cell has more earlier cells in its store than cells ahead of it.
pub fn more_are_earlier()
    ensures { MoreEarlier }
{}

// After every slot every store rises.
pub fn stores_rise()
    ensures { StoresRise }
{}

// So it does after the first transfer of a slot, when the earliest depart.
pub fn stores_rise_transferred()
    ensures { StoresRiseTransferred }
{}

// After every slot the box holds as many cells for each output as the ideal box.
pub fn same_held()
    ensures { SameHeld }
{}

// So it does after the arrivals of the first inputs, for any number of them.
pub fn same_held_arriving()
    ensures { SameHeldArriving }
{}

// So it does after the first transfer.
pub fn same_held_transferred()
    ensures { SameHeldTransferred }
{}

// So it does after the departures.
pub fn same_held_departed()
    ensures { SameHeldDeparted }
{}

// The box rejects just the cells that the ideal box rejects.
pub fn same_rejected()
    ensures { SameRejected }
{}

// Of two waiting cells of one pair the earlier stands first, at the first transfer of a slot.
pub fn pairs_in_order()
    ensures { PairsInOrder }
{}

// So it does at the second transfer.
pub fn pairs_in_order_again()
    ensures { PairsInOrderAgain }
{}

// In every slot by every output departs just what departs from the ideal box, for every stable choice.
pub fn same_departures()
    ensures { SameDepartures }
{}

// What is found is a stable choice, where cells stand at their inputs and pairs in order.
pub fn found_is_stable()
    ensures { FoundIsStable }
{}

// After as many asks as there are pairs with a waiting cell, the finding has ended.
pub fn finding_ends()
    ensures { FindingEnds }
{}

// When the finding has ended, it stays as it is.
pub fn ended_stays()
    ensures { EndedStays }
{}

// There are never more asks than pairs with a waiting cell.
pub fn asks_are_few()
    ensures { AsksAreFew }
{}

// In every run what is found is a stable choice for the first transfer of a slot.
pub fn found_in_run()
    ensures { FoundInRun }
{}

// So it is for the second transfer.
pub fn found_in_run_again()
    ensures { FoundInRunAgain }
{}

// There is always a stable choice for the first transfer of a slot.
pub fn matched()
    ensures { Matched }
{}

// So there is for the second transfer.
pub fn matched_again()
    ensures { MatchedAgain }
{}

// The promise of the whole.
pub fn the_promise()
    ensures { Main }
{}
