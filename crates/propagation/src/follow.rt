// A table whose representatives are replaced: the literals that each represented follow it.
ghost use Rattle.std.specs.Prelude.{◌≡◌};
ghost use Rattle.cnf.specs.Table.{by};
ghost use Rattle.propagation.specs.Follow.{followed, forced};

use cnf::literal::{FALSE, TRUE, opposite};
use cnf::table::representative;

// Replaces each representative by what `news` has for it.
pub fn follow(news: &[u16], table: &mut [u16])
    ensures { table.new ≡ followed (by news.now) table.old }
{
    for r in table.iter_mut() {
        *r = representative(news, *r);
    }
}

// Makes a literal true, and all that it represents.
pub fn fix(literal: u16, table: &mut [u16])
    ensures { table.new ≡ followed (forced literal) table.old }
{
    let opposed = opposite(literal);
    for r in table.iter_mut() {
        if *r == literal {
            *r = TRUE;
        } else if *r == opposed {
            *r = FALSE;
        }
    }
}
