ghost use Rattle.std.specs.Prelude.{◌≤◌};
ghost use Rattle.serde_json.specs.View.{number_view};
ghost use Rattle.osb_pyread.specs.Steps.{Gives};
ghost use Rattle.osb_pyread.specs.Numerals.{with_digit, below_zero, digits_at, number_at};

use crate::faults::Stop;
use serde_json::Number;

fn with_digit(number: u64, digit: u8) -> Result<u64, Stop>
    requires { 48 ≤ digit }
    ensures { Gives (λ n. n) result (with_digit number digit) }
{
    match number.checked_mul(10) {
        Some(tens) => match tens.checked_add(u64::from(digit - b'0')) {
            Some(sum) => Ok(sum),
            None => Err(Stop::Broken),
        },
        None => Err(Stop::Broken),
    }
}

#[tactic(auto, unfolding(crate::specs::Numerals::digits_at))]
fn read_digits(bytes: &[u8]) -> Result<(u64, &[u8]), Stop>
    ensures { Gives (λ x. (x.0, x.1.now)) result (digits_at 0 bytes.now) }
{
    let mut number = 0;
    let mut rest = bytes;
    while let [digit @ b'0'..=b'9', after @ ..] = rest {
        number = with_digit(number, *digit)?;
        rest = after;
    }
    Ok((number, rest))
}

fn below_zero(size: u64) -> Result<Number, Stop>
    ensures { Gives number_view result (below_zero size) }
{
    if 0 < size && size <= 1 << 63 {
        Ok(Number::from(-1 - (size - 1) as i64))
    } else {
        Err(Stop::Broken)
    }
}

#[tactic(auto, unfolding(crate::specs::Numerals::number_at))]
pub fn read_number(bytes: &[u8]) -> Result<(Number, &[u8]), Stop>
    ensures { Gives (λ x. (number_view x.0, x.1.now)) result (number_at bytes.now) }
{
    match bytes {
        [b'-', rest @ ..] => {
            let (size, rest) = read_digits(rest)?;
            Ok((below_zero(size)?, rest))
        }
        [b'0'..=b'9', ..] => {
            let (number, rest) = read_digits(bytes)?;
            Ok((Number::from(number), rest))
        }
        _ => Err(Stop::Broken),
    }
}
