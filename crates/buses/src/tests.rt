use crate::Bus;
use media::Medium;

#[test]
fn free_and_line(rt: HostRuntime) {
    assert!(rt; Bus::free().sends(0, 1, 9000) && Bus::free().takes(0, 1, 9000));
    assert!(rt; Bus::line().sends(0, 1, 9000) && Bus::line().takes(0, 1, 0));
    assert!(rt; !Bus::line().takes(0, 1, 1));
}

#[test]
fn the_least_room_counts(rt: HostRuntime) {
    let rooms: [(u8, u8); 3] = [(2, 3), (3, 2), (2, 2)];
    for (one, other) in rooms {
        let bus = Bus::line().narrow(one).narrow(other);
        assert!(rt; bus.sends(0, 1, 1));
        assert!(rt; !bus.sends(0, 1, 2));
        assert!(rt; bus.takes(0, 1, 0));
        assert!(rt; !bus.takes(0, 1, 1));
    }
}

#[test]
fn the_ends_of_the_room(rt: HostRuntime) {
    assert!(rt; !Bus::free().narrow(0).sends(0, 1, 0));
    assert!(rt; Bus::free().narrow(255).sends(0, 1, 254));
    assert!(rt; !Bus::free().narrow(255).sends(0, 1, 255));
    assert!(rt; Bus::free().narrow(0).takes(0, 1, 9000));
}
