// What validation takes, as types: the rows of a valid program one by one, and which of them the last row reaches.
use program::{Row, ValidProgram, reached_rows, validate};
use std::test::Fail;

// Three rows that are numbers, and a last row of this kind: as it is read.
fn last_of(kind: u32, a: u32, b: u32, c: u32) -> Option<Row> {
    let numbers = [0, 0, 0, 0, 0, 0, 0, 0, 0, 0, 0, 0, kind, a, b, c];
    let program = ValidProgram::try_from(&numbers[..]).ok()?;
    Some(program.row_at(program.last_row()))
}

#[test]
fn each_kind(rt: HostRuntime) {
    assert_eq!(rt;
        last_of(0, 4294967295, 9, 9),
        Some(Row::Constant { value: 4294967295 })
    );
    assert_eq!(rt;
        last_of(1, 4294967295, 9, 9),
        Some(Row::Place { place: 4294967295 })
    );
    assert_eq!(rt; last_of(2, 0, 1, 9), Some(Row::Add { left: 0, right: 1 }));
    assert_eq!(rt;
        last_of(3, 1, 2, 9),
        Some(Row::Multiply { left: 1, right: 2 })
    );
    assert_eq!(rt; last_of(4, 2, 0, 9), Some(Row::Less { left: 2, right: 0 }));
    assert_eq!(rt;
        last_of(5, 17, 1, 9),
        Some(Row::Store {
            place: 17,
            value: 1
        })
    );
    assert_eq!(rt;
        last_of(6, 2, 1, 9),
        Some(Row::Sequence {
            first: 2,
            second: 1
        })
    );
    assert_eq!(rt;
        last_of(7, 2, 1, 0),
        Some(Row::Choice {
            condition: 2,
            then: 1,
            otherwise: 0
        })
    );
    assert_eq!(rt;
        last_of(8, 4294967295, 2, 1),
        Some(Row::Loop {
            limit: 4294967295,
            count: 2,
            body: 1
        })
    );
    assert_eq!(rt; last_of(9, 0, 0, 0), None);
}

// Rows 0 and 2 aren't reached; row 3 reaches row 1 twice.
#[test]
fn reached(rt: HostRuntime) -> Result<(), Fail> {
    let numbers = [1, 9, 0, 0, 1, 0, 0, 0, 2, 0, 1, 0, 3, 1, 1, 0];
    let fitting = validate(&numbers, 1).map_err(|_| Fail::new("refused"))?;
    assert_eq!(rt; (fitting.places, fitting.program.row_count()), (1, 4));
    let table = reached_rows(fitting.program);
    assert_eq!(rt;
        (table[0], table[1], table[2], table[3]),
        (false, true, false, true)
    );
    assert_eq!(rt; (table[4], table[255]), (false, false));
    let last = fitting.row_at(fitting.program.last_row());
    assert_eq!(rt; last, Row::Multiply { left: 1, right: 1 });
    Ok(())
}
