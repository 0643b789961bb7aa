// The numbers of a job by which its digits are chosen.
ghost use Rattle.std.specs.Prelude.{◌≤◌};

// The radix r; q, how many units of w are one of a row's sum; the largest digit p; and f, the fraction bits
// of residuals and w, so that 2^f of their units stand for 1.
#[derive(Clone, Copy)]
pub struct Units {
    pub r: usize,
    pub q: usize,
    pub p: usize,
    pub f: usize,
    pub ghost in_range: { (4 ≤ f) × (f ≤ 44) },
}
