// Literals as codes: 2v is the variable v and 2v + 1 its opposite; variable 0 is the constant false.
ghost use Rattle.std.specs.Prelude.{◌≡◌, ◌/◌};
ghost use Rattle.cnf.specs.Truth.{opp, told, lit};

// The literals of the constant.
pub const FALSE: u16 = 0;

pub const TRUE: u16 = 1;

// The opposite literal.
pub fn opposite(code: u16) -> u16
    ensures { result ≡ opp code }
{
    if code % 2 == 0 { code + 1 } else { code - 1 }
}

// The variable of a literal.
pub fn variable(code: u16) -> usize
    ensures { result ≡ code / 2 }
{
    code as usize / 2
}

// The value of a variable, where `bits` are the values of the variables from 1 on; the constant and what is beyond the bits are false.
pub fn value(bits: &[bool], v: usize) -> bool
    ensures { result ≡ told bits.now v }
{
    if v == 0 {
        return false;
    }
    bits.get(v - 1).copied().unwrap_or(false)
}

// Whether a literal is true under the bits.
pub fn is_true(code: u16, bits: &[bool]) -> bool
    ensures { result ≡ lit (told bits.now) code }
{
    let bit = value(bits, variable(code));
    if code % 2 == 0 { bit } else { !bit }
}
