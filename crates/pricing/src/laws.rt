// The laws of prices: each function carries one, so that its proof is owed.
ghost use Rattle.pricing.specs.Laws.{PricedByRows, CapLosesNothing, SharingIsPriced, FirstByNumber, QuotedWithinLimits, DearRowIsLowest, PriceByNumbers, NumbersTellApart};

// The price of a row's program is the row's price over those of the rows that it names.
pub fn priced_by_rows()
    ensures { PricedByRows }
{}

// A row's capped price is the same whether or not the prices that it is made from are capped first.
pub fn cap_loses_nothing()
    ensures { CapLosesNothing }
{}

// Sharing is priced by what it stands for: a row that adds a row to itself costs one and twice that row's price.
pub fn sharing_is_priced()
    ensures { SharingIsPriced }
{}

// The first refusal of a price has the number that the rules give, and none is answered where they give none.
pub fn first_by_number()
    ensures { FirstByNumber }
{}

// What is quoted is at least 1 and at most the limit.
pub fn quoted_within_limits()
    ensures { QuotedWithinLimits }
{}

// A price that is refused is above the limit, and the row that is said is the lowest that the last row reaches and whose price is.
pub fn dear_row_is_lowest()
    ensures { DearRowIsLowest }
{}

// The two forms in which the entry says its answer, as the enum and by its number and values, are the same.
pub fn price_by_numbers()
    ensures { PriceByNumbers }
{}

// The number and the values tell answers apart, but for a refusal of number 0, which there is none.
pub fn numbers_tell_apart()
    ensures { NumbersTellApart }
{}
