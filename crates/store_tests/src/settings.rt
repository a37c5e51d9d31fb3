//! Settings at their limits, where no clause says it: that a world finds memory, and which field is
//! refused first.

use crate::compare::same;
use bits::Bitmap;
use map_core::{Event, Setting, run};
use metric::{Edge, Field, Refusal};
use std::test::Fail;

/// Blocks, versions, sessions and log of a setting, and which field is refused for a map of two
/// tiles.
const SETTINGS: [((u32, u32, u32, u32), Option<Field>); 12] = [
    ((2, 2, 1, 1), None),
    ((300, 64, 64, 1_048_576), None),
    ((1, 2, 1, 1), Some(Field::Blocks)),
    ((16_385, 2, 1, 1), Some(Field::Blocks)),
    ((2, 1, 1, 1), Some(Field::Versions)),
    ((2, 65, 1, 1), Some(Field::Versions)),
    ((2, 2, 0, 1), Some(Field::Sessions)),
    ((2, 2, 65, 1), Some(Field::Sessions)),
    ((2, 2, 1, 0), Some(Field::Log)),
    ((2, 2, 1, 1_048_577), Some(Field::Log)),
    ((2, 2, 0, 0), Some(Field::Sessions)),
    ((0, 0, 0, 0), Some(Field::Blocks)),
];

#[test]
fn the_first_bad_field_is_refused(rt: HostRuntime) -> Result<(), Fail> {
    let map = Bitmap::blank(rt.alloc(), 65, 2)?;
    for ((blocks, versions, sessions, log), field) in SETTINGS {
        let setting = Setting {
            blocks,
            versions,
            sessions,
            log,
            edge: Edge::Open,
        };
        let ran = run(rt.alloc(), setting, &map, &[Event::Keep]);
        same(
            &rt,
            ran.err(),
            field.map(Refusal::BadSetting),
            (blocks, versions, sessions, log),
        );
    }
    Ok(())
}
