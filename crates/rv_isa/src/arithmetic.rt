// Arithmetic on words, signed numbers in two's complement.

ghost use Rattle.std.specs.Prelude.{◌≡◌};
ghost use Rattle.rv_isa.specs.Arithmetic.{shift_left, shift_right_logical, shift_right_arithmetic, upper_signed, upper_signed_unsigned, upper_unsigned, quotient_signed, quotient_unsigned, remainder_signed, remainder_unsigned};

// The shifts take the lower five bits of the amount.

/// `sll`: zeros come in from the right.
pub fn shift_left(a: u32, b: u32) -> u32
    ensures { result ≡ shift_left a b }
{
    a << (b % 32)
}

/// `srl`: zeros come in from the left.
pub fn shift_right_logical(a: u32, b: u32) -> u32
    ensures { result ≡ shift_right_logical a b }
{
    a >> (b % 32)
}

/// `sra`: copies of the sign bit come in from the left.
pub fn shift_right_arithmetic(a: u32, b: u32) -> u32
    ensures { result ≡ shift_right_arithmetic a b }
{
    (a.cast_signed() >> (b % 32)).cast_unsigned()
}

/// `mulh`: the upper half of the product of two signed numbers.
pub fn upper_signed(a: u32, b: u32) -> u32
    ensures { result ≡ upper_signed a b }
{
    let product = i64::from(a.cast_signed()) * i64::from(b.cast_signed());
    ((product >> 32) as i32).cast_unsigned()
}

/// `mulhsu`: the upper half of the product of a signed number and an unsigned one.
pub fn upper_signed_unsigned(a: u32, b: u32) -> u32
    ensures { result ≡ upper_signed_unsigned a b }
{
    let product = i64::from(a.cast_signed()) * i64::from(b);
    ((product >> 32) as i32).cast_unsigned()
}

/// `mulhu`: the upper half of the product of two unsigned numbers.
pub fn upper_unsigned(a: u32, b: u32) -> u32
    ensures { result ≡ upper_unsigned a b }
{
    (u64::from(a) * u64::from(b) >> 32) as u32
}

// Division by zero gives all ones and leaves the dividend.

/// `div`: the quotient of signed numbers, rounded towards zero.
pub fn quotient_signed(a: u32, b: u32) -> u32
    ensures { result ≡ quotient_signed a b }
{
    if b == 0 {
        u32::MAX
    } else {
        a.cast_signed()
            .wrapping_div(b.cast_signed())
            .cast_unsigned()
    }
}

/// `divu`: the quotient of unsigned numbers.
pub fn quotient_unsigned(a: u32, b: u32) -> u32
    ensures { result ≡ quotient_unsigned a b }
{
    if b == 0 { u32::MAX } else { a / b }
}

/// `rem`: the remainder of signed numbers, with the sign of the dividend.
pub fn remainder_signed(a: u32, b: u32) -> u32
    ensures { result ≡ remainder_signed a b }
{
    if b == 0 {
        a
    } else {
        a.cast_signed()
            .wrapping_rem(b.cast_signed())
            .cast_unsigned()
    }
}

/// `remu`: the remainder of unsigned numbers.
pub fn remainder_unsigned(a: u32, b: u32) -> u32
    ensures { result ≡ remainder_unsigned a b }
{
    if b == 0 { a } else { a % b }
}
