// How far apart two numbers and two entries are.
ghost use Rattle.std.specs.Prelude.{◌≡◌, ℕ, ◌<◌, length, take, slice_index};
ghost use Rattle.model.specs.Number.{difference, distance_of_field};
ghost use Rattle.model.specs.Entry.{distance};

use model::Entry;

// The larger less the smaller, exact, by a subtraction that wraps, as the paper has it.
#[tactic(auto, using(std::proofs::lemmas::Int::ints, crate::proofs::Differences::wrapped))]
pub fn difference_of(a: i64, b: i64) -> u64
    ensures { result ≡ difference a b }
{
    let low = a.min(b);
    let high = a.max(b);
    high.cast_unsigned().wrapping_sub(low.cast_unsigned())
}

// How far two numbers are apart in steps, rounded up: one more than the whole steps where something is left over.
#[tactic(auto, using(std::proofs::lemmas::Int::ints), unfolding(model::specs::Number::distance_of_field))]
pub fn field_distance(step: u64, a: i64, b: i64) -> u64
    requires { 0 < step }
    ensures { result ≡ distance_of_field step a b }
{
    difference_of(a, b).div_ceil(step)
}

// The greatest over the fields of a part.
pub fn distance_of(steps: [u64; 4], q: Entry, part: &[i64]) -> u64
    requires by_index { (i : ℕ) → i < length part.now → 0 < slice_index steps i }
    ensures { result ≡ distance steps (take (length part.now) q.f) part.now }
{
    let mut best = 0;
    for ((step, x), y) in steps.iter().zip(&q.f).zip(part) {
        best = best.max(field_distance(*step, *x, *y));
    }
    best
}
