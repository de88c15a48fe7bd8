// Worked cases of the rules, and what comes near them and is not meant: one function for each theorem, whose contract is the theorem.
#![tactic(auto)]

ghost use Rattle.cases.specs.Cases.{CasesHold};
ghost use Rattle.cases.specs.Manner.{OursIsTheModels, OursIsAlike};
ghost use Rattle.cases.specs.Misses.{MissesGoWrong, LeftBehindIsUnstable, ClosedIsNeverLate, LargestIsLargest};

// Every claim of every worked case holds.
pub fn worked_cases_hold()
    ensures { CasesHold }
{}

// Our box, as one of the manners in which a box may go about its slots, is the model's box.
pub fn ours_is_the_models()
    ensures { OursIsTheModels }
{}

// So the same cells leave it as leave the ideal box.
pub fn ours_is_alike()
    ensures { OursIsAlike }
{}

// Every near miss goes wrong where the table says.
pub fn near_misses_go_wrong()
    ensures { MissesGoWrong }
{}

// Who is left behind without a reason shows that a choice is not stable.
pub fn left_behind_is_unstable()
    ensures { LeftBehindIsUnstable }
{}

// In a box that turns everything away no cell is ever late.
pub fn closed_is_never_late()
    ensures { ClosedIsNeverLate }
{}

// What the manner with the largest choices chooses is a choice, and no choice has more cells.
pub fn largest_is_largest()
    ensures { LargestIsLargest }
{}
