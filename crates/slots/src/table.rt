// The table itself.
ghost use Rattle.std.specs.Prelude.{◌≡◌, ℕ, None};
ghost use Rattle.slots.specs.Held.{cards_of};

#[derive(Drop)]
pub struct Slots<C> {
    pub(crate) places: [Option<C>; 256],
}

impl<C: Copy> Slots<C> {
    // A table with every slot empty.
    pub fn new() -> Self
        ensures { (k : ℕ) → cards_of result k ≡ None }
    {
        Slots {
            places: [None; 256],
        }
    }
}
