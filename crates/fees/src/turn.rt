// Where the difference of two fee cards turns.
//
// While neither cap holds, the difference of the charges moves by the difference of the rates. From the time
// at which the first cap holds, one charge stands still and the other does not fall. The step that reaches
// the cap is shorter than the rate, so it may go either way: the turning time lies before it or after it.
ghost use Rattle.fees.specs.Charge.{CappedFrom};

use crate::card::FeeCard;
use cards::TurningCard;
use crossing::next_crossing;
use family::LAST_TIME;

impl TurningCard for FeeCard {
    // The time at which the first cap holds, or one before it. By the step to the cap the difference of the
    // charges falls where this card's charge after it and the other's before it come to less than the others.
    fn turning(&self, other: &FeeCard) -> u32 {
        let capped = self.capped_from().min(other.capped_from());
        let Some(uncapped) = capped.checked_sub(1) else {
            return 0;
        };
        let first = self.charge_for(capped) + other.charge_for(uncapped);
        let second = self.charge_for(uncapped) + other.charge_for(capped);
        if self.rate > other.rate && first < second {
            return uncapped;
        }
        if self.rate < other.rate && first > second {
            return uncapped;
        }
        capped
    }
}

impl FeeCard {
    // The first time at which the cap holds, or the last time where it never does. A cap that is not above
    // the opening fee holds from the start.
    fn capped_from(&self) -> u32
        ensures { CappedFrom self.now result }
    {
        let gap = i64::from(self.opening) - self.cap as i64;
        if gap >= 0 {
            return 0;
        }
        next_crossing(gap, i64::from(self.rate), 0, LAST_TIME).unwrap_or(LAST_TIME)
    }
}
