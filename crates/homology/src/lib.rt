// The theory of coverage: linear systems over a field, the reduction that decides them, and certificates. Each function stands
// for a theorem, which is its contract.
#![tactic(auto)]

ghost use Rattle.homology.specs.Examples.{HubComputes, HallsCompute};
ghost use Rattle.homology.specs.Theorems.{BlockExcludesFilling, OneSolution, OneSeparator, WhatIsDue, ReductionEnds, AddsReach, ReductionAnswers, CertificatePublished, CertificateDecides, OnePublished, PutsReduce, PeakTells, PeakRefuses, FillingsGrow, AlikeSame};

pub mod kind;

// A separator refutes a solution, for any system.
pub fn block_excludes_filling()
    ensures { BlockExcludesFilling }
{}

// A system has one given solution at most: two agree on every column.
pub fn one_solution()
    ensures { OneSolution }
{}

// A system has one given separator at most: two agree on every row.
pub fn one_separator()
    ensures { OneSeparator }
{}

// The addition that is due to a column whose low is taken, to the last column, and none.
pub fn what_is_due()
    ensures { WhatIsDue }
{}

// The reduction of a system of T columns ends with no addition due, after at most T * (T + 1) / 2 of them.
pub fn reduction_ends()
    ensures { ReductionEnds }
{}

// Additions that are due, made until none is, come to the reduced matrix in as many steps.
pub fn adds_reach()
    ensures { AddsReach }
{}

// What is read off the reduced matrix is the given solution of the system, or its given separator.
pub fn reduction_answers()
    ensures { ReductionAnswers }
{}

// The certificate of a survey is a published one.
pub fn certificate_published()
    ensures { CertificatePublished }
{}

// It says whether the sensors that are on have a filling.
pub fn certificate_decides()
    ensures { CertificateDecides }
{}

// Two published certificates are of one kind, with the same codes.
pub fn one_published()
    ensures { OnePublished }
{}

// The puts of loading and reducing lead from the blank matrix to the reduced one.
pub fn puts_reduce()
    ensures { PutsReduce }
{}

// A store with a limit takes them all exactly if the peak is within it.
pub fn peak_tells()
    ensures { PeakTells }
{}

// A store that takes the field's codes refuses one of them, being full, exactly if the peak exceeds its limit for the shape.
pub fn peak_refuses()
    ensures { PeakRefuses }
{}

// A set of sensors that keeps the fence and has a filling lies in no set without one.
pub fn fillings_grow()
    ensures { FillingsGrow }
{}

// Fields with the same order and answers, and sets that agree on the sensors of a survey, give the same certificate.
pub fn alike_same()
    ensures { AlikeSame }
{}

// The hub over GF(3): a filling with codes 1 2 1 1 by four additions, peak 26.
pub fn hub_computes()
    ensures { HubComputes }
{}

// The hub over GF(2), a triangle both ways, a square with a diagonal, one with a sensor beside it, and two hubs in one square.
pub fn halls_compute()
    ensures { HallsCompute }
{}
