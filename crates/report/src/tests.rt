// Reports on examples.
use crate::write::{write_contradiction, write_nets, write_refusal};
use faults::{Fault, Located, ReaderFault, SheetFault};

// Whether as many bytes were written, and the space is as it should be.
fn gave(answer: Result<usize, SheetFault>, n: usize, out: &[u8], bytes: &[u8]) -> bool {
    answer == Ok(n) && out == bytes
}

#[test]
fn nets(rt: HostRuntime) {
    // 1 and 3 are free, 2 is true, 4 is the opposite of 3
    let mut out = [b'x'; 77];
    let r = write_nets(&[0, 2, 1, 6, 7], &mut out);
    assert!(rt;
        gave(
            r,
            76,
            &out,
            b"     1     0     1\n     2     1     1\n     3     0     3\n     4     2    -3\nx",
        )
    );
}

#[test]
fn single_lines(rt: HostRuntime) {
    let mut out = [b'x'; 20];
    let r = write_contradiction(&mut out);
    assert!(rt; gave(r, 19, &out, b"     0     3     0\nx"));
    let located = Located {
        line: 8001,
        fault: Fault::Reader(ReaderFault::ClauseCount),
    };
    let r = write_refusal(located, &mut out);
    assert!(rt; gave(r, 19, &out, b"  8001     4     5\nx"));
}
