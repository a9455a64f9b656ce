//! The points of an interpretation, one after another. A point has an element for each variable.
#![tactic(auto)]

ghost use Rattle.std.specs.Prelude.{◌≡◌, ◌+◌, ◌<◌, ◌^◌, ℕ, true, false, length, slice_index};
ghost use Rattle.cd_meaning.specs.Interps.{rank};

/// Makes a point the first one.
pub fn clear(point: &mut [u32])
    ensures first { (k : ℕ) → slice_index point.new k ≡ 0 }
    ensures same { length point.new ≡ length point.old }
{
    for i in 0..point.len() {
        point[i] = 0;
    }
}

/// Goes to the next point; false where this was the last one.
pub fn next_point(size: u32, point: &mut [u32]) -> bool
    requires some { 0 < size }
    requires elements { (k : ℕ) → slice_index point.old k < size }
    ensures same { length point.new ≡ length point.old }
    ensures elements { (k : ℕ) → slice_index point.new k < size }
    ensures more { result ≡ true → rank size point.new ≡ rank size point.old + 1 }
    ensures last { result ≡ false → rank size point.old + 1 ≡ size ^ length point.old }
{
    for i in 0..point.len() {
        if point[i] < size - 1 {
            point[i] += 1;
            return true;
        }
        point[i] = 0;
    }
    false
}
