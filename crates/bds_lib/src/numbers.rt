//! Whole numbers read from texts.
ghost use Rattle.std.specs.Prelude.{◌≡◌};
ghost use Rattle.std.specs.Option.{option_map};
ghost use Rattle.bds_value.specs.TextResult.{held};
ghost use Rattle.bds_lib.specs.Numbers.{numeral, positive, negative, number_of};

/// The size of the least number of 64 bits.
const LEAST: u64 = 9_223_372_036_854_775_808;

/// The number that one digit or more write, or the greatest number where it is greater.
fn numeral(digits: &[u8]) -> Option<u64>
    ensures { result ≡ option_map held (numeral digits.now) }
{
    if digits.is_empty() {
        return None;
    }
    let mut value: u64 = 0;
    for digit in digits {
        if !digit.is_ascii_digit() {
            return None;
        }
        value = value
            .saturating_mul(10)
            .saturating_add(u64::from(*digit - b'0'));
    }
    Some(value)
}

fn positive(digits: &[u8]) -> Option<i64>
    ensures { result ≡ positive (numeral digits.now) }
{
    match i64::try_from(numeral(digits)?) {
        Ok(number) => Some(number),
        Err(_) => None,
    }
}

fn negative(digits: &[u8]) -> Option<i64>
    ensures { result ≡ negative (numeral digits.now) }
{
    let value = numeral(digits)?;
    match i64::try_from(value) {
        Ok(number) => Some(-number),
        Err(_) => if value == LEAST { Some(i64::MIN) } else { None },
    }
}

/// The number of 64 bits that a text writes: digits, with a minus sign before them or without.
pub fn number_of(text: &[u8]) -> Option<i64>
    ensures { result ≡ number_of text.now }
{
    match text {
        [] => None,
        [b'-', digits @ ..] => negative(digits),
        [_, ..] => positive(text),
    }
}
