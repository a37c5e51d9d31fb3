//! The versions that are kept, each in its slot.

ghost use Rattle.std.specs.Prelude.{◌≡◌, ℕ, ◌+◌, ◌^◌, ◌<◌, ◌≤◌, fold, length, slice_index};
ghost use Rattle.std.specs.Prelude.{Some, Contains};
ghost use Rattle.events.specs.declared.kept.Seen.TheVariants.{From, Exact};
ghost use Rattle.events.specs.Words.{pin_word};
ghost use Rattle.events.specs.Kept.{members, IsIn, first_free, first_kept, with_version, lowered};
ghost use Rattle.events.specs.Kept.{kept_after, is_stay, slot_after, asks, is_spanned};
ghost use Rattle.events.specs.Kept.{IsPartOfKept, IsApart, AreExact, announcements};

/// The versions that are kept, at most 64: for each slot, 0 if it is free, or its version plus 1.
#[derive(Clone, Copy, Debug, PartialEq, Eq)]
pub struct Kept {
    pub slots: [u32; 64],
}

/// What a reader has announced.
#[derive(Clone, Copy)]
pub enum Seen {
    /// A version: the reader may hold it, or still take any later one that is kept.
    From(u32),
    /// The only version that the reader holds.
    Exact(u32),
}

impl Seen {
    /// What a reader's word announces: nothing for 0, `From(n)` for 2n + 1, and `Exact(n)` for 2n +
    /// 2. Requires that n fits 32 bits.
    #[tactic(auto, unfolding(crate::specs::Words::pin_word))]
    pub fn in_word(word: u64) -> Option<Seen>
        requires { word < 2 ^ 33 }
        ensures { word ≡ pin_word result }
    {
        if word == 0 {
            return None;
        }
        if word % 2 == 1 {
            return Some(Seen::From((word / 2) as u32));
        }
        Some(Seen::Exact((word / 2 - 1) as u32))
    }
}

/// Whether an announcement keeps a version.
fn asks(seen: Option<Seen>, version: u32) -> bool
    ensures { result ≡ asks seen version }
{
    match seen {
        None => false,
        Some(Seen::From(first)) => first <= version,
        Some(Seen::Exact(held)) => held == version,
    }
}

/// Whether a version stays: the newest does, and each that an announcement keeps.
fn is_stay(newest: u32, seen: &[Option<Seen>], version: u32) -> bool
    ensures { result ≡ is_stay newest seen.now version }
{
    if newest == version {
        return true;
    }
    for entry in seen {
        if asks(*entry, version) {
            return true;
        }
    }
    false
}

/// The content of a slot after a collect.
fn slot_after(newest: u32, seen: &[Option<Seen>], slot: u32) -> u32
    ensures { result ≡ slot_after newest seen.now slot }
{
    if 0 < slot && is_stay(newest, seen, slot - 1) {
        slot
    } else {
        0
    }
}

impl Kept {
    /// Only version 0, in slot 0.
    pub fn first() -> Kept
        ensures { result ≡ first_kept }
    {
        let mut slots = [0; 64];
        slots[0] = 1;
        Kept { slots }
    }

    /// How many versions are kept.
    pub fn count(&self) -> u32
        ensures { result ≡ length (members self.now.slots) }
    {
        let mut count = 0;
        for slot in &self.slots {
            if 0 < *slot {
                count += 1;
            }
        }
        count
    }

    /// The least version that is kept, or the newest if that is less.
    pub fn least(&self, newest: u32) -> u32
        ensures { result ≡ fold lowered newest self.now.slots }
    {
        let mut least = newest;
        for slot in &self.slots {
            if 0 < *slot && *slot - 1 < least {
                least = *slot - 1;
            }
        }
        least
    }

    /// The least free slot. Requires a free slot.
    pub fn next_slot(&self) -> u32
        requires { length (members self.now.slots) < 64 }
        ensures { result ≡ first_free self.now.slots }
    {
        for (slot, kept) in self.slots.iter().enumerate() {
            if *kept == 0 {
                return slot as u32;
            }
        }
        unreachable!()
    }

    /// The slot of a version. Requires that the version is kept.
    pub fn slot_of(&self, version: u32) -> u32
        requires { IsIn self.now version }
        ensures { slice_index self.now.slots result ≡ version + 1 }
    {
        for (slot, kept) in self.slots.iter().enumerate() {
            if 0 < *kept && *kept - 1 == version {
                return slot as u32;
            }
        }
        unreachable!()
    }

    /// Keeps one more version, in the least free slot, and returns that slot. Requires a free slot.
    pub fn add(&mut self, version: u32) -> u32
        requires room { length (members self.old.slots) < 64 }
        requires few { version + 1 < 2 ^ 32 }
        ensures kept { self.new ≡ with_version self.old version }
        ensures slot { result ≡ first_free self.old.slots }
    {
        let slot = self.next_slot();
        self.slots[slot as usize] = version + 1;
        slot
    }

    /// Whether a version from `first` to `last` is kept.
    pub fn spans(&self, first: u32, last: u32) -> bool
        ensures { result ≡ is_spanned (members self.now.slots) first last }
    {
        for slot in &self.slots {
            if first < *slot && *slot - 1 <= last {
                return true;
            }
        }
        false
    }

    /// The versions kept after a collect, each in its slot.
    ///
    /// These are the newest, each version announced exactly, and from each other announcement on
    /// all that were kept. If each announcement is exact, there is at most one version more than
    /// announcements.
    pub fn after(&self, newest: u32, seen: &[Option<Seen>]) -> Kept
        ensures kept { result ≡ kept_after self.now newest seen.now }
        ensures newest { IsIn self.now newest → IsIn result newest }
        ensures exact { (v : ℕ) → Contains seen.now (Some (Exact v)) → IsIn self.now v
            → IsIn result v }
        ensures from { (a v : ℕ) → Contains seen.now (Some (From a)) → a ≤ v → IsIn self.now v
            → IsIn result v }
        ensures part { IsPartOfKept result.slots self.now.slots }
        ensures few { IsApart self.now → AreExact seen.now
            → length (members result.slots) ≤ 1 + announcements seen.now }
    {
        let mut slots = self.slots;
        for place in 0..64usize {
            slots[place] = slot_after(newest, seen, slots[place]);
        }
        Kept { slots }
    }
}
