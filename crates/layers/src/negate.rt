// Turning the sign of every number in a place.
ghost use Rattle.std.specs.Prelude.{◌≡◌, ℕ, ◌<◌, ◌≤◌, length, pos, neg_ℤ, slice_index_or, unsigned_abs};
ghost use Rattle.family.specs.Amounts.{most_amount};

// Negates every cell. Numbers as large as amounts get can be negated.
pub(crate) fn negate(cells: &mut [i64])
    requires { (k : ℕ) → k < length cells.old → unsigned_abs (slice_index_or cells.old k (pos 0)) ≤ most_amount }
    ensures { (k : ℕ) → k < length cells.old → slice_index_or cells.new k (pos 0) ≡ neg_ℤ (slice_index_or cells.old k (pos 0)) }
{
    // A loop, since after `for_each` a proof knows nothing of what was written.
    for cell in cells.iter_mut() {
        *cell = -*cell;
    }
}
