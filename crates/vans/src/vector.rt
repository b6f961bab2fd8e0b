// Vectors on the plane of the site.
ghost use Rattle.std.specs.Prelude.{◌≡◌, ◌+ℤ◌, ◌*ℤ◌};
ghost use Rattle.vans.specs.Limits.{Near};

// A position or a velocity, of which no coordinate is larger than a van's can be up to the last time.
#[derive(Clone, Copy)]
pub(crate) struct Vector {
    pub(crate) x: i64,
    pub(crate) y: i64,
    ghost near: { Near x y },
}

impl Vector {
    // The inner product.
    #[tactic(auto, using(crate::proofs::Kept::dot_fits, crate::proofs::Kept::dot_kept, crate::specs::Inner::inner_fits))]
    pub(crate) fn dot(self, other: Vector) -> i64
        ensures { result ≡ self.x *ℤ other.x +ℤ self.y *ℤ other.y }
    {
        self.x * other.x + self.y * other.y
    }
}
