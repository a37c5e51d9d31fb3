//! The kinds of steps on the shared words, one type each, and what each step proves to its seat.

use crate::name::StoreName;
use crate::request::Request;
use crate::word_table::View;
use atomic_table::{Join, Play, Split};
use std::marker::PhantomData;

/// A reader loads NOW.
pub struct Take<Id> {
    of: PhantomData<Id>,
}

impl<Id: StoreName> Play<Request, View> for Take<Id> {
    ghost use Rattle.shelf.specs.Steps.{taken};

    ghost then = { taken Id.store.base };
}

/// A reader announces.
pub struct Announce<Id> {
    of: PhantomData<Id>,
}

impl<Id: StoreName> Play<Request, View> for Announce<Id> {
    ghost use Rattle.shelf.specs.Steps.{announces};

    ghost then = { announces Id.store.base };
}

/// A reader announces exactly the version that it holds.
pub struct Confirm;

impl Play<Request, View> for Confirm {
    ghost use Rattle.shelf.specs.Steps.{confirms};

    ghost then = { confirms };
}

/// A reader leaves.
pub struct Leave;

impl Play<Request, View> for Leave {
    ghost use Rattle.shelf.specs.Steps.{leaves};

    ghost then = { leaves };
}

/// A reader looks.
pub struct Look<Id> {
    of: PhantomData<Id>,
}

impl<Id: StoreName> Play<Request, View> for Look<Id> {
    ghost use Rattle.shelf.specs.Steps.{looks};

    ghost then = { looks Id.store.base };
}

/// The keeper takes a command.
pub struct Order;

impl Play<Request, View> for Order {
    ghost use Rattle.shelf.specs.Steps.{orders};

    ghost then = { orders };
}

/// The keeper stores a word of a publish.
pub struct Write;

impl Play<Request, View> for Write {
    ghost use Rattle.shelf.specs.Steps.{writes};

    ghost then = { writes };
}

/// The keeper loads a reader's word.
pub struct Scan<Id> {
    of: PhantomData<Id>,
}

impl<Id: StoreName> Play<Request, View> for Scan<Id> {
    ghost use Rattle.shelf.specs.Steps.{scans};

    ghost then = { scans Id.store.base };
}

/// The keeper stores NOW.
pub struct Commit<Id> {
    of: PhantomData<Id>,
}

impl<Id: StoreName> Play<Request, View> for Commit<Id> {
    ghost use Rattle.shelf.specs.Steps.{commits};

    ghost then = { commits Id.store.base };
}

/// A ticket is cut from the keeper's seat.
pub struct CutTicket;

impl Split<View> for CutTicket {
    ghost use Rattle.shelf.specs.Steps.{cutting, cut_off};

    ghost left = { cutting };

    ghost right = { cut_off };
}

/// A ticket's view joins a reader's seat.
pub struct LayTicket;

impl Join<View> for LayTicket {
    ghost use Rattle.shelf.specs.Roles.{idle};
    ghost use Rattle.shelf.specs.Steps.{handed};

    ghost both = { handed };

    ghost spent = { idle };
}

/// The load after which a reader has seen what a ticket had seen.
pub struct Learn<Id> {
    of: PhantomData<Id>,
}

impl<Id: StoreName> Play<Request, View> for Learn<Id> {
    ghost use Rattle.shelf.specs.Steps.{learns};

    ghost then = { learns Id.store.base };
}

/// The load of a meeting.
pub struct Meet<Id> {
    of: PhantomData<Id>,
}

impl<Id: StoreName> Play<Request, View> for Meet<Id> {
    ghost use Rattle.shelf.specs.Steps.{meets};

    ghost then = { meets Id.store.base };
}

/// A reader's view joins the keeper's seat.
pub struct Together;

impl Join<View> for Together {
    ghost use Rattle.shelf.specs.Roles.{idle};
    ghost use Rattle.shelf.specs.Steps.{together};

    ghost both = { together };

    ghost spent = { idle };
}

/// The reader gets its view back.
pub struct Apart;

impl Split<View> for Apart {
    ghost use Rattle.shelf.specs.Steps.{keeper_part, reader_part};

    ghost left = { keeper_part };

    ghost right = { reader_part };
}

/// The load after which a reader is given up.
pub struct GiveUp<Id> {
    of: PhantomData<Id>,
}

impl<Id: StoreName> Play<Request, View> for GiveUp<Id> {
    ghost use Rattle.shelf.specs.Steps.{gives_up};

    ghost then = { gives_up Id.store.base };
}

/// The keeper's last load.
pub struct Finish<Id> {
    of: PhantomData<Id>,
}

impl<Id: StoreName> Play<Request, View> for Finish<Id> {
    ghost use Rattle.shelf.specs.Steps.{ends};

    ghost then = { ends Id.store.base };
}

/// A reader is dealt from the keeper's seat.
pub struct Deal;

impl Split<View> for Deal {
    ghost use Rattle.shelf.specs.Steps.{dealing, next_reader};

    ghost left = { dealing };

    ghost right = { next_reader };
}
