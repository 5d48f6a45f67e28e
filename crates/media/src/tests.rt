use crate::{Free, Line, Medium, Narrow};

#[test]
fn free_and_line(rt: HostRuntime) {
    assert!(rt; Free.sends(0, 1, 9000) && Free.takes(0, 1, 9000));
    assert!(rt; Line.sends(0, 1, 9000) && Line.takes(0, 1, 0));
    assert!(rt; !Line.takes(0, 1, 1));
}

#[test]
fn narrow_over_narrow_over_line(rt: HostRuntime) {
    let bus = Narrow::new(3, Narrow::new(2, Line));
    assert!(rt; bus.sends(0, 1, 1));
    assert!(rt; !bus.sends(0, 1, 2));
    assert!(rt; bus.takes(0, 1, 0));
    assert!(rt; !bus.takes(0, 1, 1));
}

#[test]
fn the_ends_of_the_room(rt: HostRuntime) {
    assert!(rt; !Narrow::new(0, Free).sends(0, 1, 0));
    assert!(rt; Narrow::new(255, Free).sends(0, 1, 254));
    assert!(rt; !Narrow::new(255, Free).sends(0, 1, 255));
}
