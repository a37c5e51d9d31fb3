//! The name of a store, which identifies each of its seats.

use std::marker::Brand;

/// A name of one store. It has no calls: its member says which table the store's seats share, and
/// what the store was opened with.
pub trait StoreName {
    ghost use Rattle.shelf.specs.Store.{StoreId};

    ghost store: { StoreId };
}

impl StoreName for Brand {
    ghost use Rattle.shelf.specs.Store.{no_store};

    ghost store = { no_store };
}
