//! Laws of the core: of blocks and kept versions after any legal log, and of a world after each
//! event.

ghost use Rattle.std.specs.Prelude.{◌≡◌, ◌+◌, ◌≤◌, List, length, Option, Some};
ghost use Rattle.events.specs.declared.command.Entry.{Entry};
ghost use Rattle.events.specs.declared.event.Event.{Event};
ghost use Rattle.events.specs.declared.kept.Seen.{Seen};
ghost use Rattle.events.specs.Kept.{members, kept_after, IsApart, AreExact, announcements};
ghost use Rattle.events.specs.Story.{inuse, newest};
ghost use Rattle.events.specs.Legal.{IsLegal};
ghost use Rattle.events.specs.Views.{State, story, blocks};
ghost use Rattle.events.specs.Words.{Base};
ghost use Rattle.events.specs.Safe.{IsSound, IsSafe, SparesLive};
ghost use Rattle.events.specs.Sound.{IsWhole};
ghost use Rattle.events.specs.Steps.{Outcome, does};
ghost use Rattle.events.specs.Tidy.{IsReady};

/// After any legal log each block is in exactly one place: the free list, the draft's own blocks,
/// the newest directory or the retired blocks.
pub fn blocks_are_sound()
    ensures { (k : Base) (log : List Entry) → IsReady k → IsLegal k.setting k.opening log
        → IsSound (story k log) (blocks k log) k.setting.blocks }
{}

/// After any legal log the length of the free list agrees with the count of the blocks in use.
pub fn free_blocks_are_counted()
    ensures { (k : Base) (log : List Entry) → IsReady k → IsLegal k.setting k.opening log
        → length (blocks k log).free + inuse (story k log) ≡ k.setting.blocks }
{}

/// After any legal log no version is in two slots. So a collect whose scan saw only exact
/// announcements keeps at most one version more than there are announcements.
pub fn exact_announcements_keep_few()
    ensures apart { (k : Base) (log : List Entry) → IsReady k → IsLegal k.setting k.opening log
        → IsApart (story k log).kept }
    ensures few { (k : Base) (log : List Entry) (seen : List (Option Seen)) → IsReady k
        → IsLegal k.setting k.opening log → AreExact seen
        → length (members (kept_after (story k log).kept (newest (story k log)) seen).slots)
        ≤ 1 + announcements seen }
{}

/// Any event in a whole world leaves it whole and safe, and stores in no block that was live
/// before.
pub fn events_keep_a_world_safe()
    ensures { (w : State) (e : Event) (o : Outcome) → IsWhole w → does w e ≡ Some o
        → (IsWhole o.state × IsSafe o.state × SparesLive w o.stored) }
{}
