// The known stacks of document 01, and their smallest areas, and the known rows of cells. Their lines stand in specs/Known.antt
// and specs/Rows.antt; each function's promise is that each of them holds, so that the gate asks for its proof.
#![tactic(auto)]

ghost use Rattle.known.specs.Known.{AllHold, lines};
ghost use Rattle.known.specs.Rows.{AllKnown, rows};

pub fn known_stacks()
    ensures { AllHold lines }
{}

pub fn known_rows()
    ensures { AllKnown rows }
{}
