//! Values of `metric`: the texts of refusals, rectangles and distances.

use crate::compare::same;
use metric::{Chess, City, Euclid2, Field, Metric, PbmFault, Rect, Refusal};
use std::process::Abort;
use std::test::Fail;

/// Each refusal and its line.
const LINES: [(Refusal, &str); 28] = [
    (Refusal::OutOfRange, "ERR 1 OutOfRange"),
    (
        Refusal::BlocksFull { needed: 2, free: 1 },
        "ERR 2 BlocksFull 2 1",
    ),
    (Refusal::VersionsFull, "ERR 3 VersionsFull"),
    (Refusal::LogFull, "ERR 4 LogFull"),
    (Refusal::Memory, "ERR 5 Memory"),
    (Refusal::NotPinned, "ERR 6 NotPinned"),
    (Refusal::AlreadyPinned, "ERR 7 AlreadyPinned"),
    (Refusal::BadPath, "ERR 8 BadPath"),
    (Refusal::Crooked { index: 3 }, "ERR 9 Crooked 3"),
    (Refusal::UnknownCommand, "ERR 11 UnknownCommand"),
    (Refusal::BadArguments, "ERR 12 BadArguments"),
    (Refusal::LineTooLong, "ERR 13 LineTooLong"),
    (Refusal::TooMuchData, "ERR 14 TooMuchData"),
    (
        Refusal::BadImage(PbmFault::BadMagic),
        "ERR 15 BadImage BadMagic",
    ),
    (
        Refusal::BadImage(PbmFault::MissingSpace),
        "ERR 15 BadImage MissingSpace",
    ),
    (
        Refusal::BadImage(PbmFault::BadComment),
        "ERR 15 BadImage BadComment",
    ),
    (
        Refusal::BadImage(PbmFault::BadNumber),
        "ERR 15 BadImage BadNumber",
    ),
    (
        Refusal::BadImage(PbmFault::ZeroSize),
        "ERR 15 BadImage ZeroSize",
    ),
    (
        Refusal::BadImage(PbmFault::TooLarge),
        "ERR 15 BadImage TooLarge",
    ),
    (
        Refusal::BadImage(PbmFault::BadPixel),
        "ERR 15 BadImage BadPixel",
    ),
    (
        Refusal::BadImage(PbmFault::Truncated),
        "ERR 15 BadImage Truncated",
    ),
    (
        Refusal::BadImage(PbmFault::JunkNotSpaced),
        "ERR 15 BadImage JunkNotSpaced",
    ),
    (Refusal::BadImage(PbmFault::Memory), "ERR 5 Memory"),
    (
        Refusal::BadSetting(Field::Blocks),
        "ERR 16 BadSetting Blocks",
    ),
    (
        Refusal::BadSetting(Field::Versions),
        "ERR 16 BadSetting Versions",
    ),
    (
        Refusal::BadSetting(Field::Sessions),
        "ERR 16 BadSetting Sessions",
    ),
    (Refusal::BadSetting(Field::Log), "ERR 16 BadSetting Log"),
    (
        Refusal::BlocksFull {
            needed: u32::MAX,
            free: 0,
        },
        "ERR 2 BlocksFull 4294967295 0",
    ),
];

#[test]
fn refusals_have_their_lines(rt: HostRuntime) -> Result<(), Fail> {
    for (refusal, line) in LINES {
        let text = format!(in rt.alloc(); "{refusal}")?;
        same(&rt, text.as_str(), line, "as str");
    }
    Ok(())
}

/// Corners as `(x0, y0, x1, y1)`, and whether they make a rectangle.
const RECTANGLES: [((u16, u16, u16, u16), bool); 9] = [
    ((0, 0, 1, 1), true),
    ((0, 0, 4096, 4096), true),
    ((4095, 4095, 4096, 4096), true),
    ((0, 0, 4097, 1), false),
    ((0, 0, 1, 4097), false),
    ((5, 0, 5, 1), false),
    ((0, 5, 1, 5), false),
    ((6, 0, 5, 1), false),
    ((0, 6, 1, 5), false),
];

#[test]
fn rectangles_have_cells(rt: HostRuntime) {
    for ((x0, y0, x1, y1), valid) in RECTANGLES {
        let rect = Rect::new(x0, y0, x1, y1);
        same(&rt, rect.is_some(), valid, (x0, y0, x1, y1));
    }
}

/// Columns and rows, and the distances of cells that far apart: by the square of the Euclidean
/// distance, by steps to four neighbours, and by steps to eight.
const DISTANCES: [(u16, u16, (u32, u32, u32)); 6] = [
    (0, 0, (0, 0, 0)),
    (0, 2, (4, 2, 2)),
    (3, 4, (25, 7, 4)),
    (4095, 0, (16_769_025, 4095, 4095)),
    (0, 4095, (16_769_025, 4095, 4095)),
    (4095, 4095, (33_538_050, 8190, 4095)),
];

#[test]
fn distances_are_measured(rt: HostRuntime) {
    for (columns, rows, distances) in DISTANCES {
        assert!(rt; columns <= 4095 && rows <= 4095);
        let found = (
            Euclid2::of(columns, rows),
            City::of(columns, rows),
            Chess::of(columns, rows),
        );
        same(&rt, found, distances, (columns, rows));
    }
}

/// The last cell at which the left one of two columns isn't worse, by a metric.
fn last_by<M: Metric>(rt: &impl Abort, (i, gi): (u16, u16), (u, gu): (u16, u16)) -> i64 {
    assert!(rt; i < u && u <= 4097);
    assert!(rt; gi <= 4097 && gu <= 4097);
    M::last_not_worse(i, gi, u, gu)
}

#[test]
fn separators_of_two_columns(rt: HostRuntime) {
    same(&rt, last_by::<Euclid2>(&rt, (0, 0), (4, 0)), 2, "last by");
    same(&rt, last_by::<Euclid2>(&rt, (0, 2), (1, 0)), -1, "last by");
    same(&rt, last_by::<City>(&rt, (0, 0), (4, 1)), 2, "last by");
    same(&rt, last_by::<City>(&rt, (0, 0), (2, 2)), 4097, "last by");
    same(&rt, last_by::<City>(&rt, (0, 3), (2, 0)), -1, "last by");
    same(&rt, last_by::<Chess>(&rt, (0, 1), (4, 1)), 2, "last by");
    same(&rt, last_by::<Chess>(&rt, (0, 3), (4, 0)), 1, "last by");
}
