// Reading the header line.
ghost use Rattle.std.specs.Prelude.{◌≡◌};
ghost use Rattle.dimacs.specs.Numbers.{is_space, cut, filled};
ghost use Rattle.dimacs.specs.Text.{pair, header_of};

use crate::number::read_numeral;
use crate::problem::Problem;

// The two numbers that spaces part, where there are two and nothing else.
fn read_pair(text: &[u8]) -> Option<Problem>
    ensures { result ≡ pair (filled (cut is_space text.now)) }
{
    let mut words = text.split(|b| *b == b' ').filter(|word| !word.is_empty());
    let nets = read_numeral(words.next()?)?;
    let clauses = read_numeral(words.next()?)?;
    if words.next().is_some() {
        return None;
    }
    Some(Problem { nets, clauses })
}

// The numbers of the header line, where it has the form of one.
pub(crate) fn read_header(line: &[u8]) -> Option<Problem>
    ensures { result ≡ header_of line.now }
{
    match line.strip_prefix(b"p cnf".as_slice())? {
        numbers @ [b' ', ..] => read_pair(numbers),
        _ => None,
    }
}
