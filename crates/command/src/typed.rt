// A number that was typed: decimal digits alone.
ghost use Rattle.std.specs.Prelude.{◌≡◌};
ghost use Rattle.command.specs.Number.{number_in};

// Zeros in front are passed over. No text, another byte than a digit, or a number above 2^32 - 1: none. std's `parse` is no plainer: it takes a plus
// in front too, and no bytes; nor is `to_digit`, which is a char's and counts letters too.
pub fn read_number(text: &[u8]) -> Option<u32>
    ensures { result ≡ number_in text.now }
{
    if text.is_empty() {
        return None;
    }
    let mut value = 0u32;
    for byte in text {
        if !byte.is_ascii_digit() {
            return None;
        }
        let digit = u32::from(*byte - b'0');
        value = value.checked_mul(10)?.checked_add(digit)?;
    }
    Some(value)
}
