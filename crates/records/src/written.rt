//! A sheet that is written gives the record that was worked out by hand, at its place and nowhere else.
use crate::worked::*;
use record::reading::read_into;
use sheet::sheet::Sheet;
use writer::copying::copy_into;
use writer::write_to;

// The hull and the lines before line 20 is amended take the first 55 bytes of the record, and then the end.
const LENGTH: usize = 56;

#[test]
fn written_as_by_hand(rt: HostRuntime) {
    let mut memory = [blank(); 3];
    let mut sheet = Sheet::new(&mut memory);
    let mut out = [0xAA; 60];
    assert_eq!(rt;
        write_to(&sheet, &mut out, 0).map_err(numbers),
        Err((31, 0))
    );
    assert_eq!(rt;
        read_into(&RECORD[0..55], &mut sheet).map_err(numbers),
        Err((55, 55))
    );
    assert_eq!(rt;
        write_to(&sheet, &mut out, 5).map_err(numbers),
        Err((43, 0))
    );
    assert_eq!(rt;
        write_to(&sheet, &mut out, 61).map_err(numbers),
        Err((43, 0))
    );
    assert_eq!(rt; out, [0xAA; 60]);
    assert_eq!(rt; write_to(&sheet, &mut out, 3).map_err(numbers), Ok(LENGTH));
    let mut expected = [0xAA; 60];
    expected[3..58].copy_from_slice(&RECORD[0..55]);
    expected[58] = 0xFF;
    assert_eq!(rt; out, expected);
}

#[test]
fn copied(rt: HostRuntime) {
    let mut memory = [blank(); 3];
    let mut sheet = Sheet::new(&mut memory);
    assert_eq!(rt;
        read_into(&RECORD[0..55], &mut sheet).map_err(numbers),
        Err((55, 55))
    );
    let mut buffer = [0xAA; 56];
    let mut short = [blank(); 1];
    let mut other = Sheet::new(&mut short);
    assert_eq!(rt;
        copy_into(&sheet, &mut buffer, &mut other).map_err(numbers),
        Err((27, 35))
    );
    assert_eq!(rt; standing(&other), LAID);
    let mut enough = [blank(); 2];
    let mut copy = Sheet::new(&mut enough);
    assert_eq!(rt;
        copy_into(&sheet, &mut buffer, &mut copy).map_err(numbers),
        Ok(())
    );
    assert_eq!(rt; standing(&copy), TWO);
}
