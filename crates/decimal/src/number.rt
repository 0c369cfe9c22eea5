// One decimal number.
ghost use Rattle.std.specs.Prelude.{◌≡◌};
ghost use Rattle.decimal.specs.Number.{digit_of, digits_of, leading_zero, number_of};

// The number so far with one more digit behind it, where the byte is a digit and the number is at most `most`.
fn digit_of(most: u64, so_far: u64, byte: u8) -> Option<u64>
    ensures { result ≡ digit_of most so_far byte }
{
    if !byte.is_ascii_digit() {
        return None;
    }
    let next = so_far.checked_mul(10)?.checked_add(u64::from(byte - b'0'))?;
    if next > most { None } else { Some(next) }
}

// The number that digits alone spell. No `parse`: it takes a plus sign too.
fn digits_of(most: u64, field: &[u8]) -> Option<u64>
    ensures { result ≡ digits_of most 0 field.now }
{
    let mut so_far: u64 = 0;
    for byte in field {
        // no `?`: by document 01 a parsed number is taken apart by `let .. else`
        let Some(next) = digit_of(most, so_far, *byte) else {
            return None;
        };
        so_far = next;
    }
    Some(so_far)
}

// Whether the field has more than one byte and the first is a zero.
fn leading_zero(field: &[u8]) -> bool
    ensures { result ≡ leading_zero field.now }
{
    field.len() > 1 && field[0] == b'0'
}

// The number that a field spells: digits alone, no leading zero, at most `most`.
pub fn number_of(most: u64, field: &[u8]) -> Option<u64>
    ensures { result ≡ number_of most field.now }
{
    if field.is_empty() || leading_zero(field) {
        return None;
    }
    digits_of(most, field)
}
