// How many bytes each print has.
ghost use Rattle.std.specs.Prelude.{◌≡◌, ◌+◌, ◌≤◌, nat_abs, length};
ghost use Rattle.model.specs.Text.{decimal, signed, pairs, title};

// Digits are counted by dividing by ten: the loop counts no index, and the definition divides too.
pub fn decimal_length(n: usize) -> usize
    ensures { result ≡ length (decimal n) }
{
    let mut count: usize = 1;
    let mut left = n;
    while 9 < left {
        left /= 10;
        count += 1;
    }
    count
}

// A number without its sign; the least number's has no i64 of its own.
pub fn magnitude(x: i64) -> usize
    ensures { result ≡ nat_abs x }
{
    x.unsigned_abs() as usize
}

// A byte more where there is a sign.
pub fn signed_length(x: i64) -> usize
    ensures { result ≡ length (signed x) }
{
    let digits = decimal_length(magnitude(x));
    if x < 0 { digits + 1 } else { digits }
}

// The first line with its LF.
pub fn title_length(k: usize, n: usize) -> usize
    ensures { result ≡ length (title k n) + 1 }
{
    decimal_length(k) + decimal_length(n) + 24
}

// An entry line with its LF: each pair has a name, `=` and one byte behind it.
pub fn line_length(part: &[i64]) -> usize
    requires { length part.now ≤ 4 }
    ensures { result ≡ length (pairs 97 part.now) + 1 }
{
    if part.is_empty() {
        return 1;
    }
    let mut count: usize = 0;
    for x in part {
        count += 3 + signed_length(*x);
    }
    count
}
