//! The seats of a store that was opened and has no name yet.

ghost use Rattle.std.specs.Prelude.{◌≡◌};
ghost use Rattle.shelf.specs.Open.{all_newcomers};

use crate::fresh::{FreshKeeper, FreshReader};

/// The keeper's seat and the readers' seats of a store that has no name yet: one reader per
/// session, by number.
#[derive(Drop)]
pub struct Opening {
    pub keeper: FreshKeeper,
    pub readers: Vec<FreshReader>,
    pub ghost numbered: { readers.items ≡ all_newcomers keeper },
}
