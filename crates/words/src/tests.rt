// Clause lists on examples.
use crate::apply::{apply, apply_all};
use crate::check::well_formed;
use crate::eval::satisfied;

// 1 is false, 2 is true, 3 stands for itself, and 4 is the opposite of 3.
const ENTRIES: [u16; 5] = [0, 0, 1, 6, 7];

#[test]
fn a_clause_by_the_table(rt: HostRuntime) {
    // a repeat, a repeat by representatives, two opposite literals, a false literal, a true one, false literals alone
    for (clause, left) in [
        ([6, 6], Some(1)),
        ([6, 9], Some(1)),
        ([6, 8], None),
        ([2, 6], Some(1)),
        ([6, 4], None),
        ([2, 5], Some(0)),
    ] {
        let mut body = clause;
        assert_eq!(rt; apply(&ENTRIES, &mut body), left);
        assert!(rt; left != Some(1) || body[0] == 6);
    }
    let mut words = [2, 8, 8, 2, 6, 8, 0, 3, 2, 6, 3];
    assert_eq!(rt; apply_all(&ENTRIES, &mut words), 3);
    assert!(rt; words[0] == 1 && words[1] == 7 && words[2] == 0);
}

#[test]
fn the_form_and_truth_of_lists(rt: HostRuntime) {
    let mut list = [2; 66];
    list[0] = 65;
    assert!(rt; !well_formed(1, &list));
    list[0] = 64;
    assert!(rt; well_formed(1, &list[..65]));
    assert!(rt; !well_formed(1, &list[..64]));
    assert!(rt; well_formed(1, &[2, 2, 3]) && !well_formed(1, &[1, 4]) && !well_formed(1, &[1, 1]));
    assert!(rt; satisfied(&[2, 2, 4, 1, 5], &[true, false]));
    assert!(rt; !satisfied(&[2, 2, 4, 1, 4], &[true, false]));
    assert!(rt; !satisfied(&[0], &[]));
}
