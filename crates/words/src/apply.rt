// A representative table applied to clauses, in place.
ghost use Rattle.std.specs.Prelude.{◌≡◌, ℕ, ◌+◌, ◌-◌, ◌<◌, ◌≤◌, true, min, length, take, IfSome, slice_index};
ghost use Rattle.std.specs.Option.{option_map};
ghost use Rattle.cnf.specs.Words.{encode, read, well};
ghost use Rattle.cnf.specs.Table.{has, by, applieds, Tabled};
ghost use Rattle.cnf.specs.Laws.{Applies};

use cnf::literal::{FALSE, TRUE, opposite};
use cnf::table::representative;

// Whether the code is among the codes.
pub fn has_code(codes: &[u16], code: u16) -> bool
    ensures { result ≡ has codes.now code }
{
    // not `contains`, which goes on to the end of a row of sixteen
    codes.iter().any(|x| *x == code)
}

// Replaces each literal of the clause by its representative and says how many literals are left, at the front of it.
// False and repeats are dropped. None is a clause that is true, since true or two opposite literals are in it.
pub fn apply(table: &[u16], body: &mut [u16]) -> Option<usize>
    ensures applies { Applies table.now body.old (option_map (λ n. take n body.new) result) }
    ensures within { IfSome result (λ n. n ≤ length body.old) }
{
    // By index: what is read and what is written lie in one slice, of which no iterator lends both.
    let mut n = 0;
    for s in 0..body.len() {
        let d = representative(table, body[s]);
        if d != FALSE && !has_code(&body[..n], d) {
            if d == TRUE || has_code(&body[..n], opposite(d)) {
                return None;
            }
            body[n] = d;
            n += 1;
        }
    }
    Some(n)
}

// Where the clause whose count is at i ends; one whose count goes beyond the list ends with it.
fn clause_end(list: &[u16], i: usize) -> usize
    requires { i < length list.now }
    ensures ends { result ≡ i + 1 + min (slice_index list.now i) (length list.now - i - 1) }
    ensures near { result ≤ i + 65536 }
{
    let count = list[i] as usize;
    i + 1 + count.min(list.len() - i - 1)
}

// Replaces each literal of the list by its representative, without the clauses that vanish, and says how many words are left, at the front of it.
pub fn apply_all(table: &[u16], words: &mut [u16]) -> usize
    ensures exact { take result words.new ≡ encode (applieds (by table.now) (read words.old)) }
    ensures within { result ≤ length words.old }
    ensures formed { (m : ℕ) → well m words.old ≡ true → length table.now ≡ m + 1 → Tabled table.now → well m (take result words.new) ≡ true }
{
    // By index, as above: the clauses are read at i and written at j.
    let mut i = 0;
    let mut j = 0;
    while i < words.len() {
        let end = clause_end(words, i);
        if let Some(n) = apply(table, &mut words[i + 1..end]) {
            words.copy_within(i + 1..i + 1 + n, j + 1);
            words[j] = n as u16;
            j = j + 1 + n;
        }
        i = end;
    }
    j
}
