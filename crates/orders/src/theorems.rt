// The theorems about orders, each as the promise of a function. What they say of every sound chart and every lawful medium is in specs/Theorems.antt.
ghost use Rattle.orders.specs.Theorems.{MayStays, EndIsGreatest, DriveDecides, StateIsOne, BlockedDriveFindsLatest};

// An event that may run stays possible until it runs, whatever else runs before it.
pub fn what_may_run_stays_possible()
    ensures { MayStays }
{}

// However a run is continued, it ends with the same positions and the same waits.
pub fn every_order_ends_alike()
    ensures { EndIsGreatest }
{}

// Driving lowest-first after any order ends in a full order exactly when there is one.
pub fn one_drive_decides()
    ensures { DriveDecides }
{}

// An instance has finished, may run, or waits for exactly one that has not finished.
pub fn an_instance_has_one_state()
    ensures { StateIsOne }
{}

// A drive that never makes an event shows how far back it can be pushed.
pub fn a_blocked_drive_finds_the_latest_place()
    ensures { BlockedDriveFindsLatest }
{}
