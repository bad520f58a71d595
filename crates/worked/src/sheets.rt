//! The calls of a sheet at both sides of every limit, worked out apart.
use crate::said::{panel, said, used};
use sheet::line::Line;
use sheet::sheet::Sheet;
use terms::entry::Entry;
use terms::hull::Hull;

fn set_hull(
    length: u16,
    breadth: u16,
    depth: u16,
    draught: u16,
    water: u8,
) -> Result<(), (u8, usize)> {
    let mut memory = [used(); 1];
    let mut sheet = Sheet::new(&mut memory);
    said(sheet.set_hull(Hull {
        length,
        breadth,
        depth,
        draught,
        water,
    }))
}

fn enter(line: Entry) -> Result<(), (u8, usize)> {
    let mut memory = [used(); 1];
    let mut sheet = Sheet::new(&mut memory);
    said(sheet.enter(line))
}

#[test]
fn hull_length_and_breadth(rt: HostRuntime) {
    assert_eq!(rt; set_hull(4_999, 3_000, 1_500, 800, 1), Err((11, 0)));
    assert_eq!(rt; set_hull(5_000, 3_000, 1_500, 800, 1), Ok(()));
    assert_eq!(rt; set_hull(19_999, 3_000, 1_500, 800, 1), Ok(()));
    assert_eq!(rt; set_hull(20_000, 3_000, 1_500, 800, 1), Err((11, 0)));
    assert_eq!(rt; set_hull(10_000, 999, 1_500, 800, 1), Err((12, 0)));
    assert_eq!(rt; set_hull(10_000, 1_000, 1_500, 800, 1), Ok(()));
    assert_eq!(rt; set_hull(10_000, 8_000, 1_500, 800, 0), Ok(()));
    assert_eq!(rt; set_hull(10_000, 8_001, 1_500, 800, 1), Err((12, 0)));
}

#[test]
fn hull_depth_draught_and_water(rt: HostRuntime) {
    assert_eq!(rt; set_hull(10_000, 3_000, 399, 399, 1), Err((13, 0)));
    assert_eq!(rt; set_hull(10_000, 3_000, 400, 400, 1), Ok(()));
    assert_eq!(rt; set_hull(10_000, 3_000, 4_000, 100, 1), Ok(()));
    assert_eq!(rt; set_hull(10_000, 3_000, 4_001, 800, 1), Err((13, 0)));
    assert_eq!(rt; set_hull(10_000, 3_000, 1_500, 99, 1), Err((14, 0)));
    assert_eq!(rt; set_hull(10_000, 3_000, 1_500, 1_501, 1), Err((14, 0)));
    assert_eq!(rt; set_hull(10_000, 3_000, 1_500, 800, 2), Err((15, 0)));
    assert_eq!(rt; set_hull(0, 0, 0, 0, 9), Err((11, 0)));
}

#[test]
fn entered_mark_place_and_neighbours(rt: HostRuntime) {
    assert_eq!(rt; enter(panel(0)), Err((21, 0)));
    assert_eq!(rt; enter(panel(65_535)), Ok(()));
    assert_eq!(rt;
        enter(Entry {
            place: 2,
            ..panel(7)
        }),
        Ok(())
    );
    assert_eq!(rt;
        enter(Entry {
            place: 3,
            ..panel(7)
        }),
        Err((24, 7))
    );
    assert_eq!(rt;
        enter(Entry {
            near: 7,
            ..panel(7)
        }),
        Err((25, 7))
    );
    assert_eq!(rt; enter(Entry { far: 7, ..panel(7) }), Err((25, 7)));
    assert_eq!(rt;
        enter(Entry {
            near: 8,
            far: 8,
            ..panel(7)
        }),
        Ok(())
    );
    assert_eq!(rt;
        enter(Entry {
            place: 3,
            near: 7,
            area: 10_001,
            ..panel(7)
        }),
        Err((24, 7))
    );
}

#[test]
fn entered_values(rt: HostRuntime) {
    assert_eq!(rt;
        enter(Entry {
            spacing: 1_000,
            span: 5_000,
            height: 4_000,
            pressure: 100,
            strength: 500,
            area: 10_000,
            ..panel(7)
        }),
        Ok(())
    );
    assert_eq!(rt;
        enter(Entry {
            spacing: 1_001,
            ..panel(7)
        }),
        Err((26, 7))
    );
    assert_eq!(rt;
        enter(Entry {
            span: 5_001,
            ..panel(7)
        }),
        Err((26, 7))
    );
    assert_eq!(rt;
        enter(Entry {
            height: 4_001,
            ..panel(7)
        }),
        Err((26, 7))
    );
    assert_eq!(rt;
        enter(Entry {
            pressure: 101,
            ..panel(7)
        }),
        Err((26, 7))
    );
    assert_eq!(rt;
        enter(Entry {
            strength: 501,
            ..panel(7)
        }),
        Err((26, 7))
    );
    assert_eq!(rt;
        enter(Entry {
            area: 10_001,
            ..panel(7)
        }),
        Err((26, 7))
    );
}

#[test]
fn laid_amended_and_struck(rt: HostRuntime) {
    let mut memory = [used(); 3];
    let mut sheet = Sheet::new(&mut memory);
    assert_eq!(rt; said(sheet.enter(panel(20))), Ok(()));
    assert_eq!(rt; said(sheet.enter(panel(10))), Ok(()));
    assert_eq!(rt; said(sheet.enter(panel(20))), Err((22, 20)));
    assert_eq!(rt; said(sheet.lay(20, 60_001)), Err((28, 20)));
    assert_eq!(rt; said(sheet.lay(20, 60_000)), Ok(()));
    assert_eq!(rt; said(sheet.lay(20, 350)), Ok(()));
    assert_eq!(rt; said(sheet.lay(30, 60_001)), Err((23, 30)));
    assert_eq!(rt;
        said(sheet.amend(Entry {
            kind: 42,
            ..panel(20)
        })),
        Ok(())
    );
    assert_eq!(rt;
        said(sheet.amend(Entry {
            place: 3,
            ..panel(30)
        })),
        Err((23, 30))
    );
    assert_eq!(rt;
        said(sheet.amend(Entry {
            place: 3,
            ..panel(20)
        })),
        Err((24, 20))
    );
    assert_eq!(rt; said(sheet.strike(10)), Ok(()));
    assert_eq!(rt; said(sheet.strike(10)), Err((23, 10)));
    let lines = sheet.lines();
    assert!(rt; lines.len() == 1);
    assert!(rt; lines[0].entry.mark == 20 && lines[0].entry.kind == 42 && lines[0].laid == 350);
}

#[test]
fn a_full_sheet(rt: HostRuntime) {
    let mut memory = [used(); 100];
    {
        let mut sheet = Sheet::new(&mut memory);
        for mark in 1..97u16 {
            assert_eq!(rt; said(sheet.enter(panel(mark))), Ok(()));
        }
        assert_eq!(rt; said(sheet.enter(panel(97))), Err((27, 97)));
        assert_eq!(rt;
            said(sheet.enter(Entry {
                area: 10_001,
                ..panel(97)
            })),
            Err((26, 97))
        );
        assert_eq!(rt; said(sheet.strike(50)), Ok(()));
        assert_eq!(rt; said(sheet.enter(panel(97))), Ok(()));
        let lines = sheet.lines();
        assert!(rt; lines.len() == 96);
        assert!(rt;
            lines[48].entry.mark == 49 && lines[49].entry.mark == 51 && lines[95].entry.mark == 97
        );
    }
    assert!(rt; memory[96].laid == 9 && memory[99].laid == 9);
}

#[test]
fn short_memory_and_no_schedule(rt: HostRuntime) {
    let mut memory = [used(); 1];
    let mut sheet = Sheet::new(&mut memory);
    assert_eq!(rt; said(sheet.enter(panel(5))), Ok(()));
    assert_eq!(rt; said(sheet.enter(panel(4))), Err((27, 4)));
    assert_eq!(rt; said(sheet.scheduled_size(5)), Err((41, 5)));
    let mut none: [Line; 0] = [];
    let mut sheet = Sheet::new(&mut none);
    assert_eq!(rt; said(sheet.enter(panel(5))), Err((27, 5)));
}
