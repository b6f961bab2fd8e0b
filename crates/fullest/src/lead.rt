// Who leads a family at a time, and how long. Each clause names the order and the slots that it speaks of: a word over
// the family in their place would be no shorter, and would hide the time.
ghost use Rattle.std.specs.Prelude.{◌≡◌, Some, MatchOption};
ghost use Rattle.envelope.specs.Lead.{every_slot, NoneStands, Ahead, Leader, leader_of};
ghost use Rattle.fullest.specs.Lasting.{Lasting};

use family::{CardSlots, Family, LAST_TIME, Time};

// The slot that leads a family from a time on.
#[derive(Drop)]
pub struct Lead<'a, F: Family> {
    family: &'a F,
    pub slot: u8,
    since: Time,
    ghost leads: { leader_of (F.before family.now) (F.slots family.now) every_slot since.number ≡ Some slot },
}

impl<'a, F: Family> Lead<'a, F> {
    // The leader at a time, or none where no card stands. Level cards go to the lowest slot.
    pub fn at(family: &'a F, since: Time) -> Option<Lead<'a, F>>
        ensures { MatchOption result (NoneStands (F.slots family.now) every_slot) (λ l. (l.family.now ≡ family.now) × (l.since ≡ since) × Leader (F.before family.now) (F.slots family.now) every_slot since.number (Some l.slot)) }
    {
        let slot = leader(family, since.into())?;
        Some(Lead {
            family,
            slot,
            since,
        })
    }

    // The last time to which the slot leads on.
    pub fn end(&self) -> u32
        ensures { Lasting (λ v. Leader (F.before self.now.family.now) (F.slots self.now.family.now) every_slot v (Some self.now.slot)) self.now.since.number result }
    {
        (0..=255u8)
            .map(|k| self.ahead_until(k))
            .min()
            .unwrap_or(LAST_TIME)
    }

    // The last time to which the slot stays ahead of slot k. The winner of two slots changes where the fact
    // "the lower one is at or before the higher one" does.
    fn ahead_until(&self, k: u8) -> u32
        ensures { Lasting (λ v. Ahead (F.before self.now.family.now) (F.slots self.now.family.now) every_slot v self.now.slot k) self.now.since.number result }
    {
        let (lower, higher) = (self.slot.min(k), self.slot.max(k));
        self.family
            .next_exchange(lower, higher, u32::from(self.since), LAST_TIME)
            .map_or(LAST_TIME, |change| change - 1)
    }
}

// The leader of all slots at t, or none where no card stands.
pub fn leader<F: Family>(family: &F, t: u32) -> Option<u8>
    ensures told { result ≡ leader_of (F.before family.now) (F.slots family.now) every_slot t }
    ensures leads { Leader (F.before family.now) (F.slots family.now) every_slot t result }
{
    let stands = |k: &u8| family.card(*k).is_some();
    let ahead = |best, k| if family.compare(best, k, t) { best } else { k };
    (0..=255u8).filter(stands).reduce(ahead)
}
