// One row of a program, by its kind, and how it is read from the numbers.
ghost use Rattle.std.specs.Prelude.{◌≡◌, ◌+◌, ◌*◌, ◌≤◌, length};
ghost use Rattle.program.specs.Row.{kind, row_in, named, own_place, named_rows};

use crate::limits::ROW_LENGTH;

// The nine kinds of rows, in the order of their numbers. `left`, `right` and their like are numbers of earlier rows, `place` is the
// number of a place, and each row costs 1 beside what the rows cost that it runs.
//
// | Kind | Numbers | What it comes to |
// |---|---|---|
// | 0 | value | the number |
// | 1 | place | the number at the place |
// | 2, 3 | left, right | left, then right, added or multiplied modulo 2^32 |
// | 4 | left, right | left, then right: 1 if the first is less, else 0 |
// | 5 | place, value | value, which is put at the place |
// | 6 | first, second | first, then second, whose number it is |
// | 7 | condition, then, otherwise | condition; then `then` if it isn't 0, else `otherwise` |
// | 8 | limit, count, body | count; then body so often, but limit times at most, 1 more for each time: what body came to last, or 0 |
#[derive(Clone, Copy, Debug, PartialEq, Eq)]
pub enum Row {
    Constant {
        value: u32,
    },
    Place {
        place: usize,
    },
    Add {
        left: usize,
        right: usize,
    },
    Multiply {
        left: usize,
        right: usize,
    },
    Less {
        left: usize,
        right: usize,
    },
    Store {
        place: usize,
        value: usize,
    },
    Sequence {
        first: usize,
        second: usize,
    },
    Choice {
        condition: usize,
        then: usize,
        otherwise: usize,
    },
    Loop {
        limit: u32,
        count: usize,
        body: usize,
    },
}

// The rows that a row names, in the order in which it names them. An array of options was tried, and prices took four tenths longer.
#[derive(Clone, Copy)]
pub(crate) enum Named {
    Nothing,
    One(usize),
    Two(usize, usize),
    Three(usize, usize, usize),
}

impl Row {
    // The kind of the row of that number. It is asked, here, below and in `check_row`, that the row is there, as it is of an index.
    pub(crate) fn kind(numbers: &[u32], row: usize) -> u32
        requires { 4 * row + 4 ≤ length numbers.now }
        ensures { result ≡ kind numbers.now row }
    {
        numbers[ROW_LENGTH * row]
    }

    // The row of that number, of a kind that there is. The numbers of the kinds are the rules', and stand here alone. With a `Result` for other kinds,
    // which was tried, prices take a seventh more instructions.
    #[tactic(auto, unfolding(crate::specs::Row::decoded))]
    pub(crate) fn decode(numbers: &[u32], row: usize) -> Row
        requires there { 4 * row + 4 ≤ length numbers.now }
        requires known { kind numbers.now row ≤ 8 }
        ensures { result ≡ row_in numbers.now row }
    {
        let at = ROW_LENGTH * row;
        let kind = numbers[at];
        let a = numbers[at + 1];
        // From u32 to usize there is no `From`.
        let p = a as usize;
        let q = numbers[at + 2] as usize;
        let r = numbers[at + 3] as usize;
        match kind {
            0 => Row::Constant { value: a },
            1 => Row::Place { place: p },
            2 => Row::Add { left: p, right: q },
            3 => Row::Multiply { left: p, right: q },
            4 => Row::Less { left: p, right: q },
            5 => Row::Store { place: p, value: q },
            6 => Row::Sequence {
                first: p,
                second: q,
            },
            7 => Row::Choice {
                condition: p,
                then: q,
                otherwise: r,
            },
            8 => Row::Loop {
                limit: a,
                count: q,
                body: r,
            },
            _ => unreachable!(),
        }
    }

    // The rows that it names.
    pub(crate) fn named(self) -> Named
        ensures { named_rows result ≡ named self }
    {
        match self {
            Row::Constant { .. } | Row::Place { .. } => Named::Nothing,
            Row::Store { value, .. } => Named::One(value),
            Row::Add { left, right } | Row::Multiply { left, right } | Row::Less { left, right } =>
                Named::Two(left, right),
            Row::Sequence { first, second } => Named::Two(first, second),
            Row::Choice {
                condition,
                then,
                otherwise,
            } => Named::Three(condition, then, otherwise),
            Row::Loop { count, body, .. } => Named::Two(count, body),
        }
    }

    // The place that it looks at or sets by itself.
    pub(crate) fn place(self) -> Option<usize>
        ensures { result ≡ own_place self }
    {
        match self {
            Row::Place { place } | Row::Store { place, .. } => Some(place),
            Row::Constant { .. }
            | Row::Add { .. }
            | Row::Multiply { .. }
            | Row::Less { .. }
            | Row::Sequence { .. }
            | Row::Choice { .. }
            | Row::Loop { .. } => None,
        }
    }
}
