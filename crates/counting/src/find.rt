// Every assignment, one after another.
ghost use Rattle.std.specs.Prelude.{◌≡◌, ◌≤◌, take};
ghost use Rattle.solver.specs.Search.{Answered};
ghost use Rattle.counting.specs.Tries.{fits, Tried};

use solver::accept::Accepted;
use solver::assumed::every_true;
use solver::kept::Kept;
use words::eval::satisfied;

// The largest number of variables.
pub(crate) const MAX_VARIABLES: usize = 20;

// Whether the bits are a model of the list that makes the assumed literals true.
fn is_model(bits: &[bool], list: &[u16], assumed: &[u16]) -> bool
    ensures { result ≡ fits list.now assumed.now bits.now }
{
    satisfied(list, bits) && every_true(assumed, bits)
}

// Tries every choice of the bits from a place on, and stops at the first that is a model.
fn find_from(bits: &mut [bool], place: usize, list: &[u16], assumed: &[u16]) -> bool
    ensures front { take place bits.new ≡ take place bits.old }
    ensures tried { Tried (fits list.now assumed.now) place bits.old bits.new result }
{
    if place >= bits.len() {
        return is_model(bits, list, assumed);
    }
    bits[place] = false;
    if find_from(bits, place + 1, list, assumed) {
        return true;
    }
    bits[place] = true;
    find_from(bits, place + 1, list, assumed)
}

// Keeps a model of the list that makes the assumed literals true, or nothing, and says whether there is one.
pub(crate) fn find_model(kept: &mut Kept, search: &Accepted) -> bool
    requires small { search.now.m ≤ 20 }
    requires room { search.now.m ≤ kept.old.room }
    ensures room { kept.new.room ≡ kept.old.room }
    ensures answered { Answered search.now.m search.now.list.now search.now.assumed.now result kept.new.bits }
{
    let mut bits = [false; MAX_VARIABLES];
    let row = &mut bits[..search.m];
    if !find_from(row, 0, search.list, search.assumed) {
        kept.clear();
        return false;
    }
    kept.start();
    for bit in row.iter() {
        kept.push(*bit);
    }
    true
}
