// Rows that each add the one before to itself: few rows, and a tree of more nodes than there are numbers.

// The numbers of as many rows as a program may have. A case takes the first so many of them: a `Vec` would say no more, and could fail.
pub(crate) type Rows = [u32; 1024];

// A row, and the numbers that are put there.
#[derive(Clone, Copy, Drop)]
pub(crate) struct Instead(pub u8, pub [u32; 4]);

pub(crate) fn put(rows: &mut Rows, other: Instead) {
    let at = 4 * usize::from(other.0);
    rows[at..at + 4].copy_from_slice(&other.1);
}

// The first row, and 255 more, each of which adds the row before it to itself.
pub(crate) fn doubled(first: [u32; 4]) -> Rows {
    let mut rows = [0; 1024];
    put(&mut rows, Instead(0, first));
    for row in 1..=255u8 {
        let before = u32::from(row) - 1;
        put(&mut rows, Instead(row, [2, before, before, 0]));
    }
    rows
}
