// Tells the fullest of some hoppers at each minute, and prints an account of it.
#![tactic(auto)]

ghost use Rattle.std.specs.Prelude.{◌≡◌, Some, neg_ℤ};
ghost use Rattle.fullest.specs.Printed.{answer_text, attempt_text, standing_text, stretch_text};

use account::Account;
use cards::ByAmount;
use family::{CardSlots, Family, Refusal};
use hoppers::{Hopper, Hoppers};
use layers::Mirror;
use reading::Attempt;
use sample::SAMPLE;
use slots::Slots;
use std::fmt;
use stretch::PricedStretch;

mod account;
mod chart;
mod lead;
mod reading;
mod sample;
mod stretch;

fn main(rt: HostRuntime) -> anyhow::Result<()> {
    watch(&rt)
}

fn watch(rt: &HostRuntime) -> anyhow::Result<()> {
    let family: Mirror<Hoppers> = Mirror(ByAmount(Slots::new()));
    let account = Account::of(rt.alloc(), family, &SAMPLE)?;
    print!(rt; "{account}")?;
    Ok(())
}

// The family is a mirror, so a fill is an amount with its sign turned.
impl fmt::Display for Account<Mirror<Hoppers>> {
    fn fmt<W: fmt::Write>(&self, f: &mut fmt::Formatter<W>) -> fmt::Result {
        writeln!(f, "Setting up hoppers")?;
        for attempt in self.attempts.iter() {
            writeln!(f, "  {attempt}")?;
        }
        writeln!(f, "Hoppers standing")?;
        for slot in 0..=255u8 {
            if let Some(hopper) = self.family.card(slot) {
                let standing = Standing { slot, hopper };
                writeln!(f, "  {standing}")?;
            }
        }
        writeln!(f, "The fullest hopper at each minute")?;
        for stretch in self.stretches.iter() {
            writeln!(f, "  {stretch}")?;
        }
        Ok(())
    }
}

impl fmt::Display for Attempt {
    ghost output = { λ a. Some (attempt_text a) };

    fn fmt<W: fmt::Write>(&self, f: &mut fmt::Formatter<W>) -> fmt::Result {
        let slot = self.reading.slot;
        let fill = self.reading.fill;
        let capacity = self.reading.capacity;
        let answer = Answer(self.answer);
        write!(
            f,
            "slot {slot}, with {fill} coins in a capacity of {capacity}: {answer}"
        )
    }
}

// What came of setting a hopper up.
#[derive(Clone, Copy)]
struct Answer(Result<(), Refusal>);

impl fmt::Display for Answer {
    ghost output = { λ a. Some (answer_text a.0) };

    fn fmt<W: fmt::Write>(&self, f: &mut fmt::Formatter<W>) -> fmt::Result {
        match self.0 {
            Ok(()) => write!(f, "set up"),
            Err(refusal) => {
                let number = refusal.number();
                write!(f, "refusal {number}, {refusal}")
            }
        }
    }
}

// A hopper that stands in a slot.
#[derive(Clone, Copy)]
struct Standing {
    slot: u8,
    hopper: Hopper,
}

impl fmt::Display for Standing {
    ghost output = { λ s. Some (standing_text s) };

    fn fmt<W: fmt::Write>(&self, f: &mut fmt::Formatter<W>) -> fmt::Result {
        let slot = self.slot;
        let fill = self.hopper.fill();
        let rate = self.hopper.rate();
        write!(
            f,
            "slot {slot}: {fill} coins at opening, at a rate of {rate} a minute"
        )
    }
}

impl fmt::Display for PricedStretch {
    ghost output = { λ s. Some (stretch_text s) };

    fn fmt<W: fmt::Write>(&self, f: &mut fmt::Formatter<W>) -> fmt::Result {
        let first = self.stretch.first;
        let last = self.stretch.last;
        let slot = self.stretch.slot;
        let fill = turned_back(self.amount);
        write!(
            f,
            "minutes {first} to {last}: slot {slot}, with {fill} coins at minute {first}"
        )
    }
}

// The fill of which a mirror makes an amount. Wider, since the smallest 64-bit number has no negation there.
fn turned_back(amount: i64) -> i128
    ensures { result ≡ neg_ℤ amount }
{
    -i128::from(amount)
}
