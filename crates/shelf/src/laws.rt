//! Laws of the rule of a store's table, which each step keeps.

ghost use Rattle.std.specs.Prelude.{◌≡◌, ℕ, List};
ghost use Rattle.atomic_table.specs.Table.{State};
ghost use Rattle.events.specs.Words.{Base};
ghost use Rattle.shelf.specs.declared.request.Request.{Request};
ghost use Rattle.shelf.specs.Laws.{IsAState, StepsAreEvents, HandingsAreNone, IsSchedule, IsOneRun};
ghost use Rattle.shelf.specs.OneLog.{HasOneLog};
ghost use Rattle.shelf.specs.Roles.{Role};
ghost use Rattle.shelf.specs.Rule.{Agrees};

/// Between any two steps there is a state of the core whose words are the table's, whose keeper is
/// the keeper's view, and whose readers are the readers' views.
pub fn rule_is_a_state()
    ensures { (z : Base) (s : State Request Role) → Agrees z s → IsAState z s }
{}

/// Each step by which a seat stores or loads a word, and the order of a command, is the core's
/// event of its kind, in that state, and stores in no live block.
pub fn seats_do_events()
    ensures { (z : Base) (s : State Request Role) (id : ℕ) (r : Agrees z s)
        → StepsAreEvents z s r id }
{}

/// Where seats exchange views, and at the loads of a store that is closed, no event happens: one
/// state of the core is that of the table before and after.
pub fn handings_are_no_events()
    ensures { (z : Base) (s : State Request Role) (id other : ℕ) (r : Agrees z s)
        → HandingsAreNone z s r id other }
{}

/// Between any two steps NOW has the length and the newest version of one legal log, which the
/// keeper's seat knows, and of which each reader's seat has seen a prefix, with the entries by that
/// reader that it counts.
pub fn seats_have_one_log()
    ensures { (z : Base) (s : State Request Role) → Agrees z s → HasOneLog z s }
{}

/// Steps and exchanges of views in sequence are one run of the core: each event starts in the state
/// in which the one before it ended.
pub fn schedules_are_runs()
    ensures { (z : Base) (s : State Request Role) (ts : List (State Request Role)) (r : Agrees z s)
        → IsSchedule z s ts
        → IsOneRun z s r ts }
{}

/// The rule names one keeper: so the log that a load shows is the keeper's whole log.
pub fn rule_has_one_keeper()
    ensures { (z : Base) (s : State Request Role) (r q : Agrees z s) → r.k ≡ q.k }
{}
