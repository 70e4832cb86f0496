// No work: one function, whose contract is that every contract of the libraries has one answer and rules wrong ones out.
#![tactic(auto)]

ghost use Rattle.answers.specs.HeldToAccount.{HeldToAccount};

// Answers nothing; that it is proved says that `HeldToAccount` holds.
pub fn held_to_account()
    ensures { HeldToAccount }
{}
