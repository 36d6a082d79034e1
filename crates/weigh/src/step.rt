// The steps of a question for the nearest.
ghost use Rattle.std.specs.Prelude.{◌≡◌, ◌≤◌, take};
ghost use Rattle.model.specs.Calls.{any_zero};

// Whether one of the first k steps is 0.
pub fn zero_step(steps: [u64; 4], k: usize) -> bool
    requires { k ≤ 4 }
    ensures { result ≡ any_zero (take k steps) }
{
    steps[..k].contains(&0)
}
