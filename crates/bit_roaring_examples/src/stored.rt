//! Blocks as the format stores them, as bytes.
use crate::check;
use bit_portable::{Data, Head, Stored, write_stored};

#[test]
fn a_stored_list_of_two(rt: HostRuntime) {
    let expected = [
        58, 48, 0, 0, 1, 0, 0, 0, 0, 0, 1, 0, 16, 0, 0, 0, 3, 0, 7, 0,
    ];
    let head = Head {
        key: 0,
        count: 2,
        as_runs: false,
    };
    match vec![in rt.alloc(); 3u16, 7] {
        Ok(numbers) => {
            let row = [Stored {
                head,
                content: Data::Numbers(numbers),
            }];
            match write_stored(rt.alloc(), false, row.as_slice()) {
                Ok(bytes) => check(&rt, bytes.as_slice() == expected.as_slice()),
                Err(_) => check(&rt, false),
            }
        }
        Err(_) => check(&rt, false),
    }
}
