//! Closes a desk.

ghost use Rattle.std.specs.Prelude.{◌≡◌};
ghost use Rattle.desk.specs.Desks.{base_place, kept_part};

use crate::desk::Desk;
use shelf::{Closing, StoreEntry, StoreName};

impl<Id: StoreName> Desk<Id> {
    /// Closes the desk, and frees all its blocks. Returns its keeper's seat, to which the readers'
    /// seats are to be given up, the place of the last checkpoint, and the entries it keeps.
    #[tactic(auto, using(crate::proofs::HoldOpen::all_back))]
    pub fn close(self) -> (Closing<Id>, u32, Vec<StoreEntry>)
        ensures closing { result.0 ≡ record { log = self.log; readers = 0; made = 0 } }
        ensures base { result.1 ≡ base_place Id.store self.log }
        ensures log { result.2.items ≡ kept_part Id.store self.log }
    {
        let Desk {
            keeper,
            holding,
            log,
            announced: _,
        } = self;
        let base = holding.ledger.base;
        holding.end();
        (keeper.close(), base, log)
    }
}
