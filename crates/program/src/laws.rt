// The laws of programs in rows: each function carries one, so that its proof is owed.
ghost use Rattle.program.specs.Laws.{RowsByFours, DepthDoesNotMatter, RowsStandForPrograms, ReachIsMembership, ReachedIsReach, OnlyReachedRows, NamesWhatIsReached, FitsWhatIsReached, FitsRowByRow, ValidIfUnrefused, AnsweredByNumber, UnshapedRow, LowestRow, LowestPlace};

// Numbers are as many rows as there are fours among them.
pub fn rows_by_fours()
    ensures { RowsByFours }
{}

// The depth to which a row is read doesn't matter, once it exceeds the row's number.
pub fn depth_does_not_matter()
    ensures { DepthDoesNotMatter }
{}

// The program at a row by the programs at the rows that it names, an equation for each kind; the last row is the program.
pub fn rows_stand_for_programs()
    ensures { RowsStandForPrograms }
{}

// What the rows stand for that a row reaches is exactly what stands in the row's program.
pub fn reach_is_membership()
    ensures { ReachIsMembership }
{}

// `reached`, by which the refusals and the table speak, tells what the last row reaches.
pub fn reached_is_reach()
    ensures { ReachedIsReach }
{}

// Rows that the last row doesn't reach, and numbers that a row doesn't need, are of no matter: two programs of as many rows that read the same
// wherever the last row reaches are the same program.
pub fn only_reached_rows()
    ensures { OnlyReachedRows }
{}

// A program names a place exactly if a row that the last one reaches names it by itself.
pub fn names_what_is_reached()
    ensures { NamesWhatIsReached }
{}

// A program fits so many places exactly if each place that a reached row names by itself is one of them.
pub fn fits_what_is_reached()
    ensures { FitsWhatIsReached }
{}

// Where a row's program fits, so do the programs at the rows that it names, and the place that it names by itself is there.
pub fn fits_row_by_row()
    ensures { FitsRowByRow }
{}

// Refusal number 1 is answered of just the numbers that aren't valid.
pub fn valid_if_unrefused()
    ensures { ValidIfUnrefused }
{}

// The refusal that `validate` answers has the number that the rules give, and none is answered where they give none.
pub fn answered_by_number()
    ensures { AnsweredByNumber }
{}

// Of numbers out of shape, a refusal says the row that is cut short, or 0 where there is none, or 256 where there are too many.
pub fn unshaped_row()
    ensures { UnshapedRow }
{}

// Of rows in shape, the row that a refusal says is the lowest that is wrong.
pub fn lowest_row()
    ensures { LowestRow }
{}

// A program that doesn't fit is refused for the place of the lowest reached row that names one that isn't there; one that fits, only for too many places.
pub fn lowest_place()
    ensures { LowestPlace }
{}
