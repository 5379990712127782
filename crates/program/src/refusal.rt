// Why a program, its places, its room or its text is turned away: a variant for each cause, with what its reason prints.
ghost use Rattle.std.specs.Prelude.{◌≡◌};
ghost use Rattle.program.specs.Refusal.{number_of, place_of};

#[derive(Clone, Copy, Debug, PartialEq, Eq)]
pub enum Refusal {
    // Number 1: the `count` numbers aren't rows of four, since `row` is cut short.
    CutShort {
        row: usize,
        count: usize,
    },
    // Number 1: there is no row.
    NoRows,
    // Number 1: there are more rows than a program may have.
    TooManyRows {
        count: usize,
        limit: usize,
    },
    // Number 1: `row` is of a kind above the last there is.
    UnknownKind {
        row: usize,
        kind: u32,
        limit: u32,
    },
    // Number 1: `row` names a row that isn't earlier.
    NotEarlier {
        row: usize,
        named: usize,
    },
    // Number 2: `row`, which the last row reaches, names a place that isn't among the `count` there are.
    NoSuchPlace {
        row: usize,
        place: usize,
        count: usize,
    },
    // Number 2: there are more places than a program may work on.
    TooManyPlaces {
        count: usize,
        limit: usize,
    },
    // Number 3: the price is above the limit, and `row` is the lowest reached row whose price is.
    TooDear {
        row: usize,
        limit: u64,
    },
    // Number 4: the room is of another length than the places.
    RoomLength {
        length: usize,
        places: usize,
    },
    // Number 5: the text can't be read at `line`, which counts from 0.
    Unreadable {
        line: usize,
    },
}

impl Refusal {
    // The number that it is said by, 1 to 5: the rules say refusals by number.
    pub fn number(self) -> u64
        ensures { result ≡ number_of self }
    {
        match self {
            Refusal::CutShort { .. }
            | Refusal::NoRows
            | Refusal::TooManyRows { .. }
            | Refusal::UnknownKind { .. }
            | Refusal::NotEarlier { .. } => 1,
            Refusal::NoSuchPlace { .. } | Refusal::TooManyPlaces { .. } => 2,
            Refusal::TooDear { .. } => 3,
            Refusal::RoomLength { .. } => 4,
            Refusal::Unreadable { .. } => 5,
        }
    }

    // Where the cause stands: a row, a place, the room's length or a line, each from 0, and 0 for a price.
    pub fn place(self) -> u64
        ensures { result ≡ place_of self }
    {
        let place = match self {
            Refusal::CutShort { row, .. }
            | Refusal::UnknownKind { row, .. }
            | Refusal::NotEarlier { row, .. } => row,
            Refusal::NoRows | Refusal::TooDear { .. } => 0,
            Refusal::TooManyRows { limit, .. } => limit,
            Refusal::NoSuchPlace { place, .. } => place,
            Refusal::TooManyPlaces { limit, .. } => limit,
            Refusal::RoomLength { length, .. } => length,
            Refusal::Unreadable { line } => line,
        };
        // From usize to u64 there is no `From`.
        place as u64
    }
}
