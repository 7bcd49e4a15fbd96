//! Hexadecimal digits.
ghost use Rattle.std.specs.Prelude.{◌≡◌, ◌<◌, ℕ, IfSome, None};
ghost use Rattle.streams.specs.Hex.{hex_digit, hex_number};

/// A hexadecimal digit, in lower case.
pub fn hex_digit(n: u8) -> u8
    requires { n < 16 }
    ensures { result ≡ hex_digit n }
{
    if n < 10 { b'0' + n } else { 87 + n }
}

/// The number of a hexadecimal digit in lower case.
pub fn hex_number(digit: u8) -> Option<u8>
    ensures value { result ≡ hex_number digit }
    ensures number { IfSome result (λ n. (n < 16) × (hex_digit n ≡ digit)) }
    ensures none { result ≡ None → (n : ℕ) → n < 16 → hex_digit n ≡ digit → ⊥ }
{
    match digit {
        b'0'..=b'9' => Some(digit - b'0'),
        b'a'..=b'f' => Some(digit - 87),
        _ => None,
    }
}
