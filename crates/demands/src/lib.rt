// No work: one function, whose contract is the owner's demands, as theorems over the definitions of the other crates.
#![tactic(auto)]

ghost use Rattle.demands.specs.Demands.{Demands};

// Answers nothing; that it is proved says that the demands hold.
pub fn demands_hold()
    ensures { Demands }
{}
