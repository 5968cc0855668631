// A sheet on examples.
use crate::Sheet;
use cnf::open::OpenError;
use faults::SheetFault;
use std::test::Fail;

#[test]
fn a_sheet_is_opened_and_added_to(rt: HostRuntime) -> Result<(), Fail> {
    let space = vec![in rt.alloc(); 0u16; 5]?;
    let Ok(mut sheet) = Sheet::open(rt.alloc(), 2, space) else {
        return Err(Fail::new("not opened"));
    };
    assert_eq!(rt; sheet.nets(), 2);
    assert_eq!(rt; sheet.add(&[2, 3]), Ok(()));
    assert_eq!(rt; sheet.add(&[6]), Err(SheetFault::NoSuchVariable));
    assert_eq!(rt; sheet.add(&[1]), Err(SheetFault::NoSuchVariable));
    assert_eq!(rt; sheet.add(&[2; 65]), Err(SheetFault::TooManyLiterals));
    assert_eq!(rt; sheet.add(&[2, 4, 2]), Ok(()));
    assert_eq!(rt; sheet.add(&[3, 4]), Err(SheetFault::StoreFull));
    assert_eq!(rt; sheet.add(&[3]), Ok(()));
    assert_eq!(rt; sheet.wake(), Ok(()));
    assert_eq!(rt; sheet.add(&[]), Ok(()));
    assert!(rt; sheet.is_contradictory());
    assert_eq!(rt; sheet.add(&[2]), Err(SheetFault::Contradictory));
    assert_eq!(rt; sheet.wake(), Err(SheetFault::Contradictory));
    Ok(())
}

#[test]
fn a_refused_opening_gives_the_space_back(rt: HostRuntime) -> Result<(), Fail> {
    let space = vec![in rt.alloc(); 7u16; 3]?;
    match Sheet::open(rt.alloc(), 2001, space) {
        Ok(_) => Err(Fail::new("too many nets")),
        Err(unopened) => {
            assert_eq!(rt; unopened.error, OpenError::Refused(SheetFault::TooManyNets));
            assert_eq!(rt; unopened.space.as_slice(), [7, 7, 7].as_slice());
            Ok(())
        }
    }
}
