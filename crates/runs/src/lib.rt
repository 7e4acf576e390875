// Runs of off, on, certify and thin, and what every run keeps. Each function stands for a theorem, which is its contract.
#![tactic(auto)]

ghost use Rattle.runs.specs.Runs.{EveryRun};
ghost use Rattle.runs.specs.Theorems.{OneStep, ThinDrops, FenceStaysOn, StopsAtTrial, KeepsPromises};

// In every run certify decides, thin is minimal, the sensors on are the tally of the calls, and certificates are the
// published ones, the same where survey, field and sensors on are alike.
pub fn every_run()
    ensures { EveryRun }
{}

// A run of a valid survey that goes on by one call keeps its promises: what the answer tells, the tally, and the fence.
pub fn keeps_promises()
    ensures { KeepsPromises }
{}

// Each call comes to one answer and one set of sensors on, and they are worked out from what it brings.
pub fn one_step()
    ensures { OneStep }
{}

// After a thin the sensors on are those before it without the ones that it says were dropped.
pub fn thin_drops()
    ensures { ThinDrops }
{}

// No call switches a sensor of the fence off.
pub fn fence_stays_on()
    ensures { FenceStaysOn }
{}

// A thin whose first certify the store took is stopped by it only at a trial, and not at the end.
pub fn stops_at_trial()
    ensures { StopsAtTrial }
{}
