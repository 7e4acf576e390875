// The worked halls: small surveys whose certificates, texts and thinnings are known, computed from the definitions.
#![tactic(auto)]

ghost use Rattle.halls.specs.Worked.{WorkedHalls};

// What the definitions give for each of them.
pub fn worked_halls()
    ensures { WorkedHalls }
{}
