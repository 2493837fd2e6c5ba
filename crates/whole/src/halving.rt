// The search by halving.
ghost use Rattle.std.specs.Prelude.{ℕ, true, false, ◌+◌, ◌<◌, ◌≤◌, ◌^◌};

// The last number from `from` on, under `to`, that passes a test which the next one fails, where `from` is known to pass it and `to` to fail it. The numbers in
// question are halved: one test each time, and as many as are allowed.
pub fn last_passing<F: Fn(u64) -> bool>(from: u64, to: u64, allowed: u64, passes: F) -> u64
    requires ends { (from < to) × (to ≤ from + 2 ^ allowed) × (to ≤ 2 ^ 63) }
    requires known { F.post passes from true × F.post passes to false }
    requires callable { (n : ℕ) → from ≤ n → n < to → F.pre passes n }
    requires one_answer { (n : ℕ) → from ≤ n → n < to → F.post passes n true → F.post passes n false → ⊥ }
    ensures within { (from ≤ result) × (result < to) }
    ensures passed { F.post passes result true }
    ensures failed { F.post passes (result + 1) false }
{
    let mut low = from;
    let mut high = to;
    for left in (0..allowed).rev() {
        let middle = (low + high) / 2;
        if passes(middle) {
            low = middle;
        } else {
            high = middle;
        }
    }
    low
}
