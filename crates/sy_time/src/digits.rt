ghost use Rattle.std.specs.Prelude.{◌≡◌, ◌<◌, [], ◌∷◌, IfSome, Some};
ghost use Rattle.sy_base.specs.Dates.{value_of_digit, number2, number4, digit, two_digits, four_digits};

fn read_digit(byte: u8) -> Option<u8>
    ensures { result ≡ value_of_digit byte }
{
    if byte.is_ascii_digit() {
        Some(byte - b'0')
    } else {
        None
    }
}

/// The number of two digits.
pub(crate) fn read_two(a: u8, b: u8) -> Option<u8>
    ensures value { result ≡ number2 a b }
    ensures bound { IfSome result (λ n. n < 100) }
{
    let tens = read_digit(a)?;
    let ones = read_digit(b)?;
    Some(10 * tens + ones)
}

/// The number of four digits.
pub(crate) fn read_four(a: u8, b: u8, c: u8, d: u8) -> Option<u16>
    ensures value { result ≡ number4 a b c d }
    ensures bound { IfSome result (λ n. n < 10000) }
{
    let high = read_two(a, b)?;
    let low = read_two(c, d)?;
    Some(100 * high as u16 + low as u16)
}

fn write_digit(value: u8) -> u8
    requires { value < 10 }
    ensures read { value_of_digit result ≡ Some value }
    ensures written { result ≡ digit value }
{
    b'0' + value
}

/// The two digits of a number.
pub(crate) fn write_two(number: u8) -> (u8, u8)
    requires { number < 100 }
    ensures read { number2 result.0 result.1 ≡ Some number }
    ensures written { result.0 ∷ result.1 ∷ [] ≡ two_digits number }
{
    (write_digit(number / 10), write_digit(number % 10))
}

/// The four digits of a number.
pub(crate) fn write_four(number: u16) -> (u8, u8, u8, u8)
    requires { number < 10000 }
    ensures read { number4 result.0 result.1 result.2 result.3 ≡ Some number }
    ensures written { result.0 ∷ result.1 ∷ result.2 ∷ result.3 ∷ [] ≡ four_digits number }
{
    let (a, b) = write_two((number / 100) as u8);
    let (c, d) = write_two((number % 100) as u8);
    (a, b, c, d)
}
