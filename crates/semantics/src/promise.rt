// What is promised of every run: each function carries one law, for every program, all places and every purse, so that its proof is owed.
ghost use Rattle.semantics.specs.Promise.{OnePayment, Enough, MoreChangesNothing, LessIsLess, Costs, Below, OnlyNamed, LooksOnly, InTwo};

// A run is one payment: whatever is in the purse, it costs the same, comes to the same and leaves the same places, or the purse is too small.
pub fn one_payment()
    ensures { OnePayment }
{}

// A purse of the price is always enough, and no more than the price is taken.
pub fn enough()
    ensures { Enough }
{}

// With more in the purse an answer is the same, and just that more is left.
pub fn more_changes_nothing()
    ensures { MoreChangesNothing }
{}

// What is too small stays so with less.
pub fn less_is_less()
    ensures { LessIsLess }
{}

// A run costs at least 1.
pub fn costs()
    ensures { Costs }
{}

// What is come to is below 2^32.
pub fn below()
    ensures { Below }
{}

// Places that aren't named stay.
pub fn only_named()
    ensures { OnlyNamed }
{}

// Places that aren't named aren't looked at.
pub fn looks_only()
    ensures { LooksOnly }
{}

// One program after another costs both and 1, and the second is run on what the first left.
pub fn in_two()
    ensures { InTwo }
{}
