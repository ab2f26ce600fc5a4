//! Numbers in texts.

ghost use Rattle.std.specs.Prelude.{◌≡◌, ◌^◌};
ghost use Rattle.rep_types.specs.Numbers.{number_in};

/// The number that the decimal digits write, where it is below 2^64. There is one digit or more;
/// zeros may stand in front.
pub fn read_number(digits: &[u8]) -> Option<u64>
    ensures { result ≡ number_in (2 ^ 64) digits.now }
{
    if digits.is_empty() {
        return None;
    }
    let mut number: u64 = 0;
    for byte in digits {
        let digit = char::from(*byte).to_digit(10)?;
        number = number.checked_mul(10)?.checked_add(u64::from(digit))?;
    }
    Some(number)
}
