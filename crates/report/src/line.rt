// The bytes of one line: three numbers, each right-justified in six columns, and a line feed.
ghost use Rattle.std.specs.Prelude.{◌≡◌, ◌*◌, ◌<◌, ◌≤◌};
ghost use Rattle.cnf.specs.Table.{kind_of};
ghost use Rattle.report.specs.Lines.{has_digit, place, column as column_of, line as line_of, kind_line};

use cnf::kind::Kind;

// Whether the number has a digit at the place worth so much.
fn has_digit(number: usize, worth: usize) -> bool
    ensures { result ≡ has_digit number worth }
{
    worth == 1 || number >= worth
}

// The byte at a place: a digit, or a minus right before the digits, or a space.
fn byte_at(negative: bool, number: usize, worth: usize) -> u8
    requires { 0 < worth }
    ensures { result ≡ place negative number worth }
{
    if has_digit(number, worth) {
        b'0' + (number / worth % 10) as u8
    } else if negative && has_digit(number, worth / 10) {
        b'-'
    } else {
        b' '
    }
}

// A number in its six columns. Its sign is a parameter of its own, since each place writes the digits without it.
fn column(negative: bool, number: usize) -> [u8; 6]
    ensures { result ≡ column_of negative number }
{
    [
        byte_at(negative, number, 100_000),
        byte_at(negative, number, 10_000),
        byte_at(negative, number, 1_000),
        byte_at(negative, number, 100),
        byte_at(negative, number, 10),
        byte_at(negative, number, 1),
    ]
}

// A line of three numbers, the last with a minus if it is negative.
pub fn line(first: usize, second: usize, negative: bool, third: usize) -> [u8; 19]
    ensures { result ≡ line_of first second negative third }
{
    // Byte by byte: three copies into a space cost as much again as the digits.
    let [a, b, c, d, e, f] = column(false, first);
    let [g, h, i, j, k, l] = column(false, second);
    let [m, n, o, p, q, r] = column(negative, third);
    [a, b, c, d, e, f, g, h, i, j, k, l, m, n, o, p, q, r, b'\n']
}

// The line of the variable v, where this is its entry in a table.
pub(crate) fn entry_line(v: usize, entry: u16) -> [u8; 19]
    ensures { result ≡ kind_line v (kind_of v entry) }
{
    kind_line(v, Kind::of(v, entry))
}

// The line of the variable v.
pub fn kind_line(v: usize, kind: Kind) -> [u8; 19]
    ensures { result ≡ kind_line v kind }
{
    // the second number is the kind's in the format
    match kind {
        Kind::Free => line(v, 0, false, v),
        Kind::Fixed(bit) => line(v, 1, false, bit as usize),
        Kind::Tied(r) => line(v, 2, r % 2 == 1, r as usize / 2),
    }
}
