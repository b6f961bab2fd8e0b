// Late start: the family below as it is some time later. Its order and its amounts at t are those below at
// t + delay, and past the end they stay as at the last time.
ghost use Rattle.std.specs.Prelude.{◌≡◌, ◌+◌};
ghost use Rattle.family.specs.Order.{clamp};
ghost use Rattle.layers.specs.Delayed.{delayed, delayed_amount};
ghost use Rattle.layers.specs.Delay.{moved_few};
ghost use Rattle.std.proofs.Common.{rules};

use family::{CardSlots, Family, LAST_TIME, Priced, PricedFamily, Refusal, Time, run_in_range};

// A late start over a family, with the cards that are in it.
#[derive(Drop)]
pub struct LateStart<F> {
    // The family below.
    pub below: F,
    // By how much it is later; none can change it, since the order never changes.
    delay: u32,
}

impl<F> LateStart<F> {
    // The family some time later. A delay above the last time is read as the last time.
    pub fn new(below: F, delay: u32) -> Self
        ensures below { result.below ≡ below }
        ensures delay { result.delay ≡ clamp delay }
    {
        LateStart {
            below,
            delay: Time::from(delay).into(),
        }
    }

    // By how much it is later.
    pub fn delay(&self) -> u32
        ensures { result ≡ self.now.delay }
    {
        self.delay
    }

    // The time below that a time here stands for.
    fn time_below(&self, t: u32) -> u32
        ensures { clamp result ≡ clamp (t + self.now.delay) }
    {
        t.saturating_add(self.delay)
    }
}

// Handed down here as in each layer: one impl over a trait that lends what is below was tried, and each layer then
// needs as many lines.
impl<F: CardSlots> CardSlots for LateStart<F> {
    type Card = F::Card;

    ghost slots = { λ l. F.slots l.below };

    ghost alike = { λ l m. (l.delay ≡ m.delay) × F.alike l.below m.below };

    fn put(&mut self, slot: u8, card: F::Card) -> Result<(), Refusal> {
        self.below.put(slot, card)
    }

    fn lift(&mut self, slot: u8) -> Result<(), Refusal> {
        self.below.lift(slot)
    }

    fn card(&self, slot: u8) -> Option<F::Card> {
        self.below.card(slot)
    }
}

impl<F: Family> Family for LateStart<F> {
    ghost before = { λ l. delayed l.delay (F.before l.below) };

    ghost swaps = { λ l. F.swaps l.below };

    ghost ordered = { Prim.search rules };

    ghost few = { λ f. moved_few f.delay (F.swaps f.below) (F.before f.below) (F.few f.below) };

    ghost bounded = { Prim.search rules };

    ghost order_stays = { Prim.search rules };

    ghost bound_stays = { Prim.search rules };

    fn compare(&self, i: u8, j: u8, t: u32) -> bool {
        self.below.compare(i, j, self.time_below(t))
    }

    // The exchange here is that below of the times moved on by the delay, moved back again.
    fn next_exchange(&self, i: u8, j: u8, t: u32, end: u32) -> Option<u32> {
        self.below
            .next_exchange(i, j, self.time_below(t), self.time_below(end))
            .map(|later| later - self.delay)
    }

    fn bound(&self) -> u8 {
        self.below.bound()
    }
}

impl<F: Priced> Priced for LateStart<F> {
    ghost amount = { λ l. delayed_amount l.delay (F.amount l.below) };

    ghost sized = { Prim.search rules };

    fn amount_at(&self, slot: u8, t: u32) -> Option<i64> {
        self.below.amount_at(slot, self.time_below(t))
    }

    // The amounts below from first + delay on; past the end, where a run below is refused, the last one is repeated.
    fn amounts(&self, slot: u8, first: u32, cells: &mut [i64]) -> Result<(), Refusal> {
        run_in_range(first, cells)?;
        let last = self
            .below
            .amount_at(slot, LAST_TIME)
            .ok_or(Refusal::SlotEmpty)?;
        let start = self.time_below(first);
        let left = (LAST_TIME + 1).saturating_sub(start) as usize;
        let (within, past) = cells.split_at_mut(left.min(cells.len()));
        past.fill(last);
        if within.is_empty() {
            return Ok(());
        }
        self.below.amounts(slot, start, within)
    }
}

impl<F: PricedFamily> PricedFamily for LateStart<F> {
    ghost orders = { Prim.search rules };
}
