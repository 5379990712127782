// The number and the place that each refusal is said by.
use program::Refusal;

#[test]
fn numbers_and_places(rt: HostRuntime) {
    let row = 7;
    let count = 300;
    let line = 18446744073709551615;
    let cases = [
        (Refusal::CutShort { row, count }, 1, 7),
        (Refusal::NoRows, 1, 0),
        (Refusal::TooManyRows { count, limit: 256 }, 1, 256),
        (
            Refusal::UnknownKind {
                row,
                kind: 9,
                limit: 8,
            },
            1,
            7,
        ),
        (Refusal::NotEarlier { row, named: 8 }, 1, 7),
        (
            Refusal::NoSuchPlace {
                row,
                place: 12,
                count,
            },
            2,
            12,
        ),
        (Refusal::TooManyPlaces { count, limit: 1024 }, 2, 1024),
        (
            Refusal::TooDear {
                row,
                limit: 4611686018427387904,
            },
            3,
            0,
        ),
        (
            Refusal::RoomLength {
                length: 4,
                places: 3,
            },
            4,
            4,
        ),
        (Refusal::Unreadable { line }, 5, 18446744073709551615),
    ];
    for (refusal, number, place) in cases.iter() {
        assert_eq!(rt; (refusal.number(), refusal.place()), (*number, *place));
    }
}
