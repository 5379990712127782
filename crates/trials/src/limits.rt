// The limit of rows at its edge and one past it, and the largest tree that rows can stand for.
use crate::doubled::doubled;
use program::{Refusal, validate};

#[test]
fn rows(rt: HostRuntime) {
    assert_eq!(rt; validate(&[0; 1024], 0).err(), None);
    assert_eq!(rt;
        validate(&[0; 1023], 0).err(),
        Some(Refusal::CutShort {
            row: 255,
            count: 1023,
        })
    );
    assert_eq!(rt;
        validate(&[0; 1025], 0).err(),
        Some(Refusal::CutShort {
            row: 256,
            count: 1025,
        })
    );
    assert_eq!(rt;
        validate(&[0; 1028], 0).err(),
        Some(Refusal::TooManyRows {
            count: 257,
            limit: 256,
        })
    );
    assert_eq!(rt;
        validate(&[9; 4096], 0).err(),
        Some(Refusal::TooManyRows {
            count: 1024,
            limit: 256,
        })
    );
}

// 256 rows over a place: a tree of 2^256 - 1 nodes, looked through in 256 steps.
#[test]
fn doubling(rt: HostRuntime) {
    let mut numbers = doubled([1, 0, 0, 0]);
    assert_eq!(rt; validate(&numbers, 1).err(), None);
    assert_eq!(rt;
        validate(&numbers, 0).err(),
        Some(Refusal::NoSuchPlace {
            row: 0,
            place: 0,
            count: 0,
        })
    );
    numbers[1021] = 255;
    assert_eq!(rt;
        validate(&numbers, 1).err(),
        Some(Refusal::NotEarlier {
            row: 255,
            named: 255,
        })
    );
}
