// One-literal clauses, propagated through a table and a clause list until none is left.
ghost use Rattle.std.specs.Prelude.{◌≡◌};
ghost use Rattle.cnf.specs.Words.{encode, read};
ghost use Rattle.cnf.specs.Table.{by};
ghost use Rattle.propagation.specs.Propagate.{propagated, rewritten, Leaves};

use crate::follow::{fix, follow};
use crate::unit::{Pending, next_pending};
use words::apply::apply_all;

// Makes the literal of each one-literal clause true and applies the table to the list, as long as there is one, and says how many words of the list are left.
// None: a clause is empty. What table and list hold then is left free, and so are the words behind those that are left.
pub fn propagate(table: &mut [u16], words: &mut [u16]) -> Option<usize>
    ensures { encode (read words.old) ≡ words.old → Leaves (propagated table.old (read words.old)) table.new words.new result }
{
    let mut used = words.len();
    // Counted turns: where the words are no clause list, nothing else shows that this ends.
    for _turn in 0..words.len() {
        match next_pending(&words[0..used]) {
            Pending::Nothing => return Some(used),
            Pending::Conflict => return None,
            Pending::Forces(literal) => {
                fix(literal, table);
                used = apply_all(table, &mut words[0..used]);
            }
        }
    }
    Some(used)
}

// Replaces the representatives by `news`, applies the table to the list and propagates, and says how many words of the list are left.
// None: a clause became empty. What table and list hold then is left free, and so are the words behind those that are left.
pub fn rewrite(news: &[u16], table: &mut [u16], words: &mut [u16]) -> Option<usize>
    ensures { encode (read words.old) ≡ words.old → Leaves (rewritten (by news.now) table.old (read words.old)) table.new words.new result }
{
    follow(news, table);
    let used = apply_all(table, words);
    propagate(table, &mut words[0..used])
}
