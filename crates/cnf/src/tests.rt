// A table on examples.
use crate::kind::Kind;
use crate::literal::is_true;
use crate::open::OpenError;
use crate::table::{Table, representative};
use faults::SheetFault;
use std::test::Fail;

#[test]
fn a_fresh_table_represents_itself(rt: HostRuntime) -> Result<(), Fail> {
    let table = Table::fresh(rt.alloc(), 3)?;
    assert_eq!(rt; table.nets(), 3);
    assert_eq!(rt; table.representative(7), Some(7));
    assert_eq!(rt; table.representative(8), None);
    assert_eq!(rt; table.kind(3), Some(Kind::Free));
    assert_eq!(rt; table.kind(0), None);
    assert_eq!(rt; table.kind(4), None);
    match Table::fresh(rt.alloc(), 2001) {
        Ok(_) => Err(Fail::new("too many nets")),
        Err(e) => {
            assert_eq!(rt; e, OpenError::Refused(SheetFault::TooManyNets));
            Ok(())
        },
    }
}

#[test]
fn literals_by_entries_and_bits(rt: HostRuntime) {
    // 1 is false, 2 is the opposite of 3; what is beyond the entries is a constant
    let entries = [0, 0, 7, 6];
    for (code, d) in [
        (0, 0),
        (1, 1),
        (2, 0),
        (3, 1),
        (4, 7),
        (5, 6),
        (6, 6),
        (8, 0),
        (9, 1),
    ] {
        assert_eq!(rt; representative(&entries, code), d);
    }
    for (code, bit) in [
        (0, false),
        (1, true),
        (2, true),
        (3, false),
        (4, false),
        (6, false),
        (7, true),
    ] {
        assert_eq!(rt; is_true(code, &[true, false]), bit);
    }
}
