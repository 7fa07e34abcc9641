//! Cells and headings of coordinates.

use sbpl_cli::{cell_at, heading_at};

/// Numbers of headings, angles, and the nearest bin. Half a bin is a full turn of 6283185307 nanoradians over twice the number of
/// headings: of 16 headings it lies between 196349540 and 196349541 nanoradians, of 4 between 785398163 and 785398164, of 5 between
/// 628318530 and 628318531, of 7 between 448798950 and 448798951, and of 64 between 49087385 and 49087386.
const BINS: [(u32, i64, u32); 18] = [
    (16, 392_700_000, 1),
    (16, -392_700_000, 15),
    (16, 6_283_200_000, 0),
    (16, 196_349_541, 1),
    (16, 196_349_540, 0),
    (16, -196_349_541, 15),
    (4, 785_398_163, 0),
    (4, 785_398_164, 1),
    (4, -785_398_164, 3),
    (5, 628_318_530, 0),
    (5, 628_318_531, 1),
    (5, -628_318_531, 4),
    (7, 448_798_950, 0),
    (7, 448_798_951, 1),
    (7, -448_798_951, 6),
    (64, 49_087_385, 0),
    (64, 49_087_386, 1),
    (64, -49_087_386, 63),
];

/// Coordinates, and their cells of 25: floors, also below zero.
const CELLS: [(i64, i64); 4] = [(-1, -1), (-25, -1), (-26, -2), (24, 0)];

#[test]
fn headings_are_nearest(rt: HostRuntime) {
    for (headings, angle, heading) in &BINS {
        assert!(rt;
            *headings > 0 && heading_at(*headings, *angle) == *heading,
            "{angle}"
        );
    }
}

#[test]
fn cells_are_floors(rt: HostRuntime) {
    for (x, cell) in &CELLS {
        assert!(rt; cell_at(25, *x) == *cell, "{x}");
    }
}
