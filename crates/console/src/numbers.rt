ghost use Rattle.std.specs.Prelude.{◌≤◌, MatchResult, SomeIff};
ghost use Rattle.console.specs.Grammar.{Number, Fields, DigitsOnly, weighed};
ghost use Rattle.console.specs.Parts.{Cut, Refuses};

use crate::faults::LineFault;

// The value of digits, where a `u16` holds it.
fn value(digits: &[u8]) -> Option<u16>
    ensures { SomeIff result (DigitsOnly digits.now × (weighed digits.now ≤ 65535)) (weighed digits.now) }
{
    let mut value: u16 = 0;
    for byte in digits {
        if !byte.is_ascii_digit() {
            return None;
        }
        value = value.checked_mul(10)?.checked_add(u16::from(*byte - b'0'))?;
    }
    Some(value)
}

// One number: digits, with no zero before others. So it has at most five, since a `u16` holds it.
fn number(digits: &[u8]) -> Result<u16, LineFault>
    ensures { MatchResult result (λ n. Number digits.now n) (λ e. Refuses digits.now 1 e) }
{
    if digits.is_empty() || digits.len() > 1 && digits[0] == b'0' {
        return Err(LineFault::Fields);
    }
    value(digits).ok_or(LineFault::Fields)
}

// The bytes before the first space, and those behind it where there is one.
fn cut(fields: &[u8]) -> (&[u8], Option<&[u8]>)
    ensures { Cut fields.now result.0.now result.1 }
{
    match fields.iter().position(|byte| *byte == b' ') {
        Some(at) => (&fields[..at], Some(&fields[at + 1..])),
        None => (fields, None),
    }
}

// Numbers, with one space between neighbours.
pub(crate) fn numbers<const N: usize>(fields: &[u8]) -> Result<[u16; N], LineFault>
    ensures { MatchResult result (λ ns. Fields fields.now ns) (λ e. Refuses fields.now N e) }
{
    let mut numbers = [0; N];
    let mut rest = Some(fields);
    for place in numbers.iter_mut() {
        let (digits, behind) = cut(rest.ok_or(LineFault::Fields)?);
        *place = number(digits)?;
        rest = behind;
    }
    match rest {
        Some(_) => Err(LineFault::Fields),
        None => Ok(numbers),
    }
}
