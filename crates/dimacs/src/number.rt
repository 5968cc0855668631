// The numbers of a text.
ghost use Rattle.std.specs.Prelude.{◌≡◌, ◌<◌, IfSome};
ghost use Rattle.dimacs.specs.Numbers.{short, numeral, number};

// Whether there are one to five bytes, the first of which is 0 only if it stands alone.
fn is_short(text: &[u8]) -> bool
    ensures { result ≡ short text.now }
{
    match text {
        [] => false,
        [_] => true,
        [first, ..] => *first != b'0' && text.len() <= 5,
    }
}

// The number that one to five digits write, without a leading 0 unless it is 0.
pub(crate) fn read_numeral(text: &[u8]) -> Option<u32>
    ensures value { result ≡ numeral text.now }
    ensures bound { IfSome result (λ v. v < 100000) }
{
    if !is_short(text) {
        return None;
    }
    let mut value = 0;
    for b in text {
        value = value * 10 + char::from(*b).to_digit(10)?;
    }
    Some(value)
}

// The code that a number of a clause says: 0 at a clause's end, and a variable's opposite behind
// a minus.
pub(crate) fn read_number(text: &[u8]) -> Option<u32>
    ensures { result ≡ number text.now }
{
    match text {
        [b'-', digits @ ..] => match read_numeral(digits)? {
            0 => None,
            v => Some(2 * v + 1),
        },
        _ => Some(2 * read_numeral(text)?),
    }
}
