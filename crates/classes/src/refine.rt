// Classes split by a model.
ghost use Rattle.std.specs.Prelude.{◌≡◌, ◌+◌, ◌≤◌, length};
ghost use Rattle.cnf.specs.Table.{Tabled};
ghost use Rattle.classes.specs.Classes.{Refines};

use cnf::literal::{is_true, variable};
use cnf::table::representative;

// Splits each class where the bits say so: `split` has for the variable that named a class the literal that names what differs from it.
pub(crate) fn refine(table: &mut [u16], split: &mut [u16], bits: &[bool])
    requires size { length table.old ≡ length bits.now + 1 }
    requires parts { length table.old ≤ length split.old }
    requires few { length bits.now ≤ 2000 }
    requires tabled { Tabled table.old }
    ensures { Refines bits.now table.old table.new split.new }
{
    // no more than the table needs, since the part may lie in a longer row
    split[..table.len()].fill(0);
    for (w, name) in table.iter_mut().enumerate() {
        let old = *name;
        if is_true((2 * w) as u16, bits) != is_true(old, bits) {
            let r = variable(old);
            // 0 where nothing is split off yet: a table of literals, and the constant's is never one that is split off
            if split[r] == 0 {
                split[r] = (2 * w) as u16 + old % 2;
            }
            *name = representative(split, old);
        }
    }
}
