// Validation: the first refusal that applies to numbers that should be a program, and to a count of places, or the program as a type.
ghost use Rattle.std.specs.Prelude.{◌≡◌, ◌+◌, ◌*◌, ◌<◌, ◌≤◌, length, if◌then◌else◌, None, Some, nat_lt};
ghost use Rattle.program.specs.Row.{named_rows, own_place, row_in};
ghost use Rattle.program.specs.Rows.{row_count};
ghost use Rattle.program.specs.Validation.{unless, Validates, first_said, first_not_earlier, kind_refusal, row_refusal, shape_refusal, rows_refusal, row_place_refusal, absent, count_refusal, places_refusal, program_refusal};

use crate::fitting::FittingProgram;
use crate::limits::{MAX_KIND, MAX_PLACES, MAX_ROWS, ROW_LENGTH};
use crate::reach::reached_rows;
use crate::refusal::Refusal;
use crate::row::{Named, Row};
use crate::valid::ValidProgram;

// A named row, if it isn't earlier than `row`.
fn late(row: usize, named: usize) -> Option<usize>
    ensures { result ≡ (if nat_lt named row then None else Some named) }
{
    (named >= row).then_some(named)
}

// The first of the named rows that isn't earlier than `row`.
fn first_not_earlier(row: usize, rows: Named) -> Option<usize>
    ensures { result ≡ first_not_earlier row (named_rows rows) }
{
    match rows {
        Named::Nothing => None,
        Named::One(a) => late(row, a),
        Named::Two(a, b) => late(row, a).or(late(row, b)),
        Named::Three(a, b, c) => late(row, a).or(late(row, b)).or(late(row, c)),
    }
}

// Numbers that are 1 to 256 rows, by their count.
fn check_shape(count: usize, rows: usize) -> Result<(), Refusal>
    requires { 4 * rows ≤ count }
    ensures { result ≡ unless (shape_refusal count rows) tt }
{
    if count != ROW_LENGTH * rows {
        Err(Refusal::CutShort { row: rows, count })
    } else if rows == 0 {
        Err(Refusal::NoRows)
    } else if rows <= MAX_ROWS {
        Ok(())
    } else {
        Err(Refusal::TooManyRows {
            count: rows,
            limit: MAX_ROWS,
        })
    }
}

// A kind that there is.
fn check_kind(row: usize, kind: u32) -> Result<(), Refusal>
    ensures { result ≡ unless (kind_refusal row kind) tt }
{
    if kind <= MAX_KIND {
        Ok(())
    } else {
        Err(Refusal::UnknownKind {
            row,
            kind,
            limit: MAX_KIND,
        })
    }
}

// One row by itself: its kind, and that the rows it names are earlier.
#[tactic(auto, using(crate::proofs::Unless::unless_ok, crate::proofs::Unless::unless_err, crate::proofs::Refusing::row_refusal_named), unfolding(crate::specs::Validation::row_refusal))]
fn check_row(numbers: &[u32], row: usize) -> Result<(), Refusal>
    requires { 4 * row + 4 ≤ length numbers.now }
    ensures { result ≡ unless (row_refusal numbers.now row) tt }
{
    check_kind(row, Row::kind(numbers, row))?;
    match first_not_earlier(row, Row::decode(numbers, row).named()) {
        Some(named) => Err(Refusal::NotEarlier { row, named }),
        None => Ok(()),
    }
}

// So many rows from row 0 up: the lowest wrong one is refused. A row is known by its number, and where its numbers stand only `Row` knows.
#[tactic(auto, using(crate::proofs::Refusing::scans))]
fn check_rows(numbers: &[u32], rows: usize) -> Result<(), Refusal>
    requires { 4 * rows ≤ length numbers.now }
    ensures { result ≡ unless (first_said (row_refusal numbers.now) rows) tt }
{
    for row in 0..rows {
        check_row(numbers, row)?;
    }
    Ok(())
}

// The place that a row names by itself, if it names one, is there.
fn check_place(row: usize, place: Option<usize>, places: usize) -> Result<(), Refusal>
    ensures { result ≡ unless (absent places row place) tt }
{
    match place {
        Some(place) if place >= places => Err(Refusal::NoSuchPlace {
            row,
            place,
            count: places,
        }),
        _ => Ok(()),
    }
}

// The place that a row names by itself is there, if the row is marked as reached. (A flag in the table is all that is known of that.)
fn check_marked(
    program: ValidProgram,
    marked: bool,
    row: usize,
    places: usize,
) -> Result<(), Refusal>
    requires { row < row_count program.numbers.now }
    ensures { result ≡ unless (if marked then absent places row (own_place (row_in program.entry.numbers.now row)) else None) tt }
{
    if marked {
        check_place(row, program.row_at(row).place(), places)
    } else {
        Ok(())
    }
}

// The places that reached rows name by themselves are there: the lowest row that names another is refused.
#[tactic(auto, using(crate::proofs::Refusing::scans))]
fn check_reached(program: ValidProgram, places: usize) -> Result<(), Refusal>
    ensures { result ≡ unless (first_said (row_place_refusal program.entry.numbers.now places) (row_count program.entry.numbers.now)) tt }
{
    let reached = reached_rows(program);
    for (row, marked) in reached[..program.row_count()].iter().enumerate() {
        check_marked(program, *marked, row, places)?;
    }
    Ok(())
}

// A count of places that a program may work on.
fn check_count(places: usize) -> Result<(), Refusal>
    ensures { result ≡ unless (count_refusal places) tt }
{
    if places <= MAX_PLACES {
        Ok(())
    } else {
        Err(Refusal::TooManyPlaces {
            count: places,
            limit: MAX_PLACES,
        })
    }
}

impl<'a> TryFrom<&'a [u32]> for ValidProgram<'a> {
    type Error = Refusal;

    // The program of the numbers where refusal number 1 doesn't apply, else that refusal, with the lowest row that is wrong.
    ghost try_from_gives = { λ numbers r. Validates (rows_refusal numbers.now) r (λ p. p.numbers.now ≡ numbers.now) };

    fn try_from(numbers: &'a [u32]) -> Result<ValidProgram<'a>, Refusal> {
        let rows = numbers.len() / ROW_LENGTH;
        check_shape(numbers.len(), rows)?;
        check_rows(numbers, rows)?;
        Ok(ValidProgram::new(numbers))
    }
}

impl<'a> ValidProgram<'a> {
    // The program with so many places where refusal number 2 doesn't apply, else that refusal: a place that a reached row names and that isn't
    // there, or else too many places.
    pub fn fit(self, places: usize) -> Result<FittingProgram<'a>, Refusal>
        ensures { Validates (places_refusal self.entry.numbers.now places) result (λ p. (p.program.numbers.now ≡ self.entry.numbers.now) × (p.places ≡ places)) }
    {
        check_reached(self, places)?;
        check_count(places)?;
        Ok(FittingProgram::new(self.numbers, places))
    }
}

// The program of the numbers with so many places, or the first refusal that applies: number 1, then number 2.
pub fn validate(numbers: &[u32], places: usize) -> Result<FittingProgram, Refusal>
    ensures { Validates (program_refusal numbers.now places) result (λ p. (p.program.numbers.now ≡ numbers.now) × (p.places ≡ places)) }
{
    ValidProgram::try_from(numbers)?.fit(places)
}
