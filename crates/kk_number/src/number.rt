ghost use Rattle.std.specs.Prelude.{◌≡◌, ◌≤◌, ◌^◌, true, IfSome, IfNone};
ghost use Rattle.std.specs.List.{list_all};
ghost use Rattle.std.specs.Char.{is_ascii_digit};
ghost use Rattle.std.specs.Str.Parse.{digits_value};
ghost use Rattle.kk_number.specs.Numbers.{has_leading_zero, is_number, number_in};

/// The number that a text writes in decimal digits, without a sign or a leading zero, where it is in a range.
pub fn number_in(least: u64, greatest: u64, text: &str) -> Option<u64>
    ensures value { result ≡ number_in least greatest text.now }
    ensures least { IfSome result (λ number. least ≤ number) }
    ensures greatest { IfSome result (λ number. number ≤ greatest) }
{
    if !is_number(text.as_bytes()) {
        return None;
    }
    let number = value(text)?;
    (least <= number && number <= greatest).then_some(number)
}

fn is_number(text: &[u8]) -> bool
    ensures { result ≡ is_number text.now }
{
    !text.is_empty() && !has_leading_zero(text) && are_digits(text)
}

fn has_leading_zero(text: &[u8]) -> bool
    ensures { result ≡ has_leading_zero text.now }
{
    text.len() > 1 && text[0] == b'0'
}

fn are_digits(text: &[u8]) -> bool
    ensures { result ≡ list_all is_ascii_digit text.now }
{
    text.iter().all(|byte| byte.is_ascii_digit())
}

/// The number that digits write; none where it does not fit in a u64.
fn value(digits: &str) -> Option<u64>
    requires { is_number digits.now ≡ true }
    ensures some { IfSome result (λ number. number ≡ digits_value 10 digits.now) }
    ensures none { IfNone result (2 ^ 64 ≤ digits_value 10 digits.now) }
{
    digits.parse().ok()
}
