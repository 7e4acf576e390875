// What is shown of the definitions that the traits cite.
ghost use Rattle.matrix.specs.Theorems.{AddingAdds, NonzeroFound};

// The puts of an addition, all of them made, leave the sum of the columns.
pub fn adding_adds()
    ensures { AddingAdds }
{}

// The nonzero rows that a grid tells are the first from a row on, and the last up to a row.
pub fn nonzero_found()
    ensures { NonzeroFound }
{}
