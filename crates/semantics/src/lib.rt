// The laws of programs: each function carries one, so that its proof is owed. The definitions stand in specs/.
#![tactic(auto)]

pub mod promise;

ghost use Rattle.semantics.specs.Laws.{FitsWhatItNames, FitsMore, FitsWithin, NamesWithin, PriceAboveNothing, PriceAboveParts, PriceOfChoice};

// A program fits so many places exactly if each place that it names is one of them.
pub fn fits_what_it_names()
    ensures { FitsWhatItNames }
{}

// What fits so many places fits more.
pub fn fits_more()
    ensures { FitsMore }
{}

// What stands in a program that fits, fits.
pub fn fits_within()
    ensures { FitsWithin }
{}

// A program names what the programs in it name.
pub fn names_within()
    ensures { NamesWithin }
{}

// A program costs something.
pub fn price_above_nothing()
    ensures { PriceAboveNothing }
{}

// A program costs more than each part that it may run: the body of a loop counts only where the limit isn't 0.
pub fn price_above_parts()
    ensures { PriceAboveParts }
{}

// The price of a choice counts the dearer of its two arms.
pub fn price_of_choice()
    ensures { PriceOfChoice }
{}
