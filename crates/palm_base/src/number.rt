// Numbers as texts spell them.
ghost use Rattle.std.specs.Prelude.{◌≡◌, ◌≤◌, not, IfSome};
ghost use Rattle.std.specs.List.{list_all};
ghost use Rattle.palm_base.specs.Prefix.{is_no_digit};
ghost use Rattle.palm_base.specs.Numbers.{number_of, number_from_to};

/// The most digits of a number field.
pub const MOST_NUMBER_DIGITS: usize = 20;

fn all_digits(field: &[u8]) -> bool
    ensures { result ≡ list_all (λ b. not (is_no_digit b)) field.now }
{
    field.iter().all(|b| b.is_ascii_digit())
}

// The value of a number field. Twenty digits need more than 64 bits.
fn number(field: &[u8]) -> Option<u128>
    ensures { result ≡ number_of field.now }
{
    if field.is_empty() || field.len() > MOST_NUMBER_DIGITS || !all_digits(field) {
        return None;
    }
    let mut value = 0u128;
    for b in field {
        value = value * 10 + u128::from(*b - b'0');
    }
    Some(value)
}

/// The value of a number field, where it is from `least` to `most`. A number field is 1 to 20 digits, of which the
/// first may be zeros. `None` exactly where the text is no such field or its value is out of these bounds.
pub fn number_from_to(field: &[u8], least: u64, most: u64) -> Option<u64>
    ensures value { result ≡ number_from_to least most field.now }
    ensures least { IfSome result (λ n. least ≤ n) }
    ensures most { IfSome result (λ n. n ≤ most) }
{
    let value = number(field)?;
    if value < u128::from(least) || value > u128::from(most) {
        return None;
    }
    Some(value as u64)
}

#[cfg(test)]
mod tests {
    use super::*;

    #[test]
    fn number_fields(rt: HostRuntime) {
        for (text, least, most, value) in [
            ("0", 0, 9, Some(0)),
            ("007", 1, 7, Some(7)),
            ("8", 1, 7, None),
            ("0", 1, 7, None),
            ("", 0, 9, None),
            ("+7", 0, 9, None),
            ("7a", 0, 9, None),
            ("18446744073709551615", 0, u64::MAX, Some(u64::MAX)),
            ("18446744073709551616", 0, u64::MAX, None),
            ("00000000000000000063", 0, 63, Some(63)),
            ("000000000000000000063", 0, 63, None),
        ] {
            assert_eq!(rt;
                number_from_to(text.as_bytes(), least, most),
                value,
                "{text}"
            );
        }
    }
}
