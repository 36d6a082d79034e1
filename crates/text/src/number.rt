// Reading a number at the front of a text, strictly from left to right; each function answers what it read, and what is left.
ghost use Rattle.std.specs.Prelude.{◌≡◌, ◌+◌, ◌-◌, ◌≤◌, length, drop, option_map};
ghost use Rattle.model.specs.Text.{minus};
ghost use Rattle.text.specs.Strict.{grown, capped, decimal_at, number_at};
ghost use Rattle.text.specs.Told.{told};

// One digit more; what passes 2^63 stays just past it.
fn grow(value: usize, digit: u8) -> usize
    requires { (48 ≤ digit) × (digit ≤ 57) }
    ensures { result ≡ grown value (digit - 48) }
{
    if 922337203685477580 < value {
        9223372036854775809
    } else {
        value * 10 + usize::from(digit - b'0')
    }
}

// Goes on from the digits that `value` is made of.
fn read_digits(text: &[u8], value: usize) -> (usize, &[u8])
    ensures { capped text.now value ≡ (result.0, result.1.now) }
{
    let mut sum = value;
    let mut rest = text;
    while let [b @ b'0'..=b'9', behind @ ..] = rest {
        sum = grow(sum, *b);
        rest = behind;
    }
    (sum, rest)
}

// A 0 stands alone: whatever stands behind it is not its digit.
pub fn read_decimal(text: &[u8]) -> Option<(usize, &[u8])>
    ensures { told result ≡ decimal_at text.now }
{
    match text {
        [b'0', rest @ ..] => Some((0, rest)),
        [b @ b'1'..=b'9', behind @ ..] => {
            let (value, rest) = read_digits(behind, usize::from(*b - b'0'));
            if value <= 9223372036854775808 {
                Some((value, rest))
            } else {
                None
            }
        }
        _ => None,
    }
}

// A number less than 0, down to the least of all.
fn negative(magnitude: usize) -> i64
    requires { (1 ≤ magnitude) × (magnitude ≤ 9223372036854775808) }
    ensures { result ≡ minus magnitude }
{
    -1 - (magnitude - 1) as i64
}

// A minus has no 0 behind it.
pub fn read_number(text: &[u8]) -> Option<(i64, &[u8])>
    ensures { told result ≡ number_at text.now }
{
    if let [b'-', digits @ ..] = text {
        return match read_decimal(digits)? {
            (0, _) => None,
            (magnitude, rest) => Some((negative(magnitude), rest)),
        };
    }
    let (value, rest) = read_decimal(text)?;
    Some((i64::try_from(value).ok()?, rest))
}
