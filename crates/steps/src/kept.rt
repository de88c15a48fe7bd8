// What each step of a slot leaves as it was in lent memory.
ghost use Rattle.steps.specs.Kept.{ArrivalsStayWithin, TransferStaysWithin, DeparturesStayWithin, SettingsStayWithin, PlacesKept};

// Arrivals leave what lies beyond the settings as it was, and do not depend on it.
pub fn arrivals_stay_within()
    ensures { ArrivalsStayWithin }
{}

// So does a transfer.
pub fn transfer_stays_within()
    ensures { TransferStaysWithin }
{}

// So do departures.
pub fn departures_stay_within()
    ensures { DeparturesStayWithin }
{}

// So do new settings.
pub fn settings_stay_within()
    ensures { SettingsStayWithin }
{}

// Arrivals change a place's bytes only where a cell is put there, and the other steps change none.
pub fn places_keep_their_bytes()
    ensures { PlacesKept }
{}
