//! The table that a store's seats share: all words of the core. It has no slots.

use crate::request::Request;
use atomic_table::{Seat, Table, TableRule};
use bits::Bitmap;
use events::Setting;
use std::alloc::Global;
use std::marker::Model;
use std::snapshot::Snapshot;

/// What a seat knows. Contracts see the seat's role; no value of the type is made.
pub struct View {
    _none: u8,
}

impl Model for View {
    ghost use Rattle.shelf.specs.Roles.{Role, idle};

    ghost Value = { Role };

    ghost view = { λ _. idle };
}

/// What a table is made from: the setting, and the opening bitmap as contracts see it.
#[derive(Drop)]
pub struct Basis {
    pub setting: Setting,
    pub opening: Snapshot<Bitmap>,
}

/// The rule of the table: there is a state of the core whose words are the table's, and whose
/// keeper and readers are what the seats know.
pub struct Law;

impl TableRule<Request, View, Basis> for Law {
    ghost use Rattle.std.specs.Prelude.{[]};
    ghost use Rattle.shelf.specs.Roles.{keeping, resting};
    ghost use Rattle.shelf.specs.Rule.{Agrees};

    ghost holds = { λ basis. Agrees record {
      setting = basis.setting;
      opening = basis.opening.value;
    } };

    ghost first = { λ _. keeping (resting 0 []) };
}

pub type Words = Table<Request, View, Basis, Law, Global>;

pub type TableSeat = Seat<Request, View>;
