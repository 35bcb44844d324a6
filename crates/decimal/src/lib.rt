// Decimal numbers as text in lent slices.
#![tactic(auto)]

ghost use Rattle.std.specs.Prelude.{◌≡◌, ◌+◌, ◌≤◌, length, drop};
ghost use Rattle.octets_spec.specs.Over.{over};
ghost use Rattle.decimal_spec.specs.Decimal.{decimal};
ghost use Rattle.decimal_spec.specs.Reading.{run, valued, decimal_at};
ghost use Rattle.decimal.specs.Digit.{DigitAt};

// Lays n's digits over out, from `at` on; answers where they end. It calls itself, since a loop would first have to count the digits.
pub fn put_decimal(out: &mut [u8], at: usize, n: u64) -> usize
    requires { at + length (decimal n) ≤ length out.old }
    ensures { (result ≡ at + length (decimal n)) × (out.new ≡ over out.old at (decimal n)) }
{
    if n < 10 {
        out[at] = b'0' + n as u8;
        return at + 1;
    }
    let end = put_decimal(out, at, n / 10);
    out[end] = b'0' + (n % 10) as u8;
    end + 1
}

// The digit at `at`.
fn digit_at(s: &[u8], at: usize) -> Option<u64>
    ensures { DigitAt s.now at result }
{
    match *s.get(at)? {
        x @ b'0'..=b'9' => Some(u64::from(x - b'0')),
        _ => None,
    }
}

// The number that the digits from `at` on spell, of which there may be none, if it is at most `most`; and where they end.
fn valued_at(s: &[u8], at: usize, most: u64) -> Option<(u64, usize)>
    ensures { result ≡ valued most at (run (drop at s.now)) }
{
    let mut end = at;
    let mut value: u64 = 0;
    while let Some(digit) = digit_at(s, end) {
        value = value.checked_mul(10)?.checked_add(digit)?;
        if most < value {
            return None;
        }
        end += 1;
    }
    Some((value, end))
}

// The number at `at`, if it is at most `most`, and where it ends: at least one digit, and no zero in front of others.
pub fn decimal_at(s: &[u8], at: usize, most: u64) -> Option<(u64, usize)>
    ensures { result ≡ decimal_at most s.now at }
{
    if digit_at(s, at)? == 0 && digit_at(s, at + 1).is_some() {
        return None;
    }
    valued_at(s, at, most)
}
