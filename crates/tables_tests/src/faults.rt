use crate::cases::{action, at, fault_of, input, out, unknown};
use charts::Peer::{Environment, Instance};
use charts::{Event, Kind};

#[test]
fn lengths(rt: HostRuntime) {
    assert_eq!(rt; fault_of(&[0; 32], &[]), None);
    assert_eq!(rt; fault_of(&[0; 33], &[]), at(11, 0, 0));
}

#[test]
fn events(rt: HostRuntime) {
    assert_eq!(rt; fault_of(&[4096], &[action(0); 4096]), None);
    assert_eq!(rt; fault_of(&[4097], &[action(0); 4097]), at(12, 0, 0));
}

#[test]
fn sums(rt: HostRuntime) {
    assert_eq!(rt; fault_of(&[1], &[]), at(13, 0, 0));
    assert_eq!(rt; fault_of(&[], &[action(0)]), at(13, 0, 0));
    assert_eq!(rt; fault_of(&[1, 1], &[action(0); 3]), at(13, 0, 0));
    assert_eq!(rt; fault_of(&[65535; 32], &[]), at(13, 0, 0));
}

#[test]
fn kinds(rt: HostRuntime) {
    assert_eq!(rt;
        fault_of(&[1, 2], &[unknown(0), action(0), action(0)]),
        at(14, 0, 0)
    );
    assert_eq!(rt;
        fault_of(&[1, 2], &[action(0), action(0), unknown(4)]),
        at(14, 1, 1)
    );
    assert_eq!(rt; fault_of(&[0, 1, 0], &[unknown(255)]), at(14, 1, 0));
}

#[test]
fn peers(rt: HostRuntime) {
    assert_eq!(rt;
        fault_of(&[1, 1], &[out(Instance(2), 0), input(Instance(0), 0)]),
        at(15, 0, 0)
    );
    assert_eq!(rt;
        fault_of(&[1, 1], &[out(Instance(1), 0), input(Instance(254), 0)]),
        at(15, 1, 0)
    );
    assert_eq!(rt;
        fault_of(&[1, 1], &[out(Instance(1), 0), input(Instance(0), 0)]),
        None
    );
}

#[test]
fn an_action_with_an_instance(rt: HostRuntime) {
    let e = Event::new(Kind::Action, Instance(0), 7);
    assert_eq!(rt; fault_of(&[2], &[action(7), e]), at(15, 0, 1));
}

#[test]
fn numbers(rt: HostRuntime) {
    assert_eq!(rt;
        fault_of(&[2], &[action(4095), out(Environment, 4095)]),
        None
    );
    assert_eq!(rt;
        fault_of(&[2], &[action(4096), out(Environment, 4095)]),
        at(16, 0, 0)
    );
    assert_eq!(rt;
        fault_of(&[1, 1], &[action(4095), out(Environment, 4096)]),
        at(16, 1, 0)
    );
}

#[test]
fn repeats(rt: HostRuntime) {
    assert_eq!(rt;
        fault_of(
            &[2, 1],
            &[
                out(Instance(1), 5),
                out(Instance(1), 5),
                input(Instance(0), 5)
            ]
        ),
        at(17, 0, 1)
    );
    assert_eq!(rt;
        fault_of(
            &[1, 2],
            &[
                out(Instance(1), 5),
                input(Instance(0), 5),
                input(Instance(0), 5)
            ]
        ),
        at(17, 1, 1)
    );
    assert_eq!(rt;
        fault_of(&[1, 1], &[out(Environment, 4095), out(Environment, 4095)]),
        at(17, 1, 0)
    );
}

#[test]
fn matches(rt: HostRuntime) {
    assert_eq!(rt;
        fault_of(&[1, 1], &[out(Instance(1), 5), action(5)]),
        at(18, 0, 0)
    );
    assert_eq!(rt;
        fault_of(&[1, 1], &[action(5), input(Instance(0), 5)]),
        at(18, 1, 0)
    );
    assert_eq!(rt;
        fault_of(&[1, 1], &[out(Instance(1), 5), input(Instance(1), 5)]),
        at(18, 0, 0)
    );
    assert_eq!(rt;
        fault_of(
            &[1, 1, 1],
            &[out(Instance(1), 5), action(0), input(Instance(0), 5)]
        ),
        at(18, 0, 0)
    );
}

#[test]
fn the_environment(rt: HostRuntime) {
    assert_eq!(rt;
        fault_of(&[2], &[out(Environment, 5), input(Environment, 6)]),
        None
    );
    assert_eq!(rt;
        fault_of(&[1, 1], &[out(Environment, 5), input(Environment, 5)]),
        at(18, 0, 0)
    );
    assert_eq!(rt;
        fault_of(&[1, 1], &[out(Environment, 5), input(Instance(0), 5)]),
        at(18, 0, 0)
    );
    assert_eq!(rt; fault_of(&[1, 1], &[out(Environment, 5), action(5)]), None);
}

#[test]
fn two_faults_at_once(rt: HostRuntime) {
    assert_eq!(rt; fault_of(&[0; 33], &[action(0); 4097]), at(11, 0, 0));
    assert_eq!(rt; fault_of(&[0], &[action(0); 4097]), at(12, 0, 0));
    assert_eq!(rt; fault_of(&[2], &[unknown(9)]), at(13, 0, 0));
    assert_eq!(rt;
        fault_of(&[2], &[unknown(9), out(Instance(9), 0)]),
        at(14, 0, 0)
    );
    assert_eq!(rt;
        fault_of(&[2], &[out(Instance(9), 0), unknown(9)]),
        at(15, 0, 0)
    );
}

#[test]
fn two_faults_in_one_event(rt: HostRuntime) {
    let e = Event {
        kind: 0,
        peer: 9,
        number: 4096,
    };
    assert_eq!(rt; fault_of(&[1], &[e]), at(14, 0, 0));
    assert_eq!(rt; fault_of(&[1], &[out(Instance(9), 4096)]), at(15, 0, 0));
    assert_eq!(rt; fault_of(&[1], &[out(Environment, 4096)]), at(16, 0, 0));
}

#[test]
fn a_later_pass_waits(rt: HostRuntime) {
    assert_eq!(rt;
        fault_of(
            &[3],
            &[out(Environment, 1), out(Environment, 1), action(4096)]
        ),
        at(16, 0, 2)
    );
    assert_eq!(rt;
        fault_of(
            &[3],
            &[
                out(Instance(0), 1),
                out(Environment, 2),
                out(Environment, 2)
            ]
        ),
        at(17, 0, 2)
    );
    assert_eq!(rt;
        fault_of(
            &[3],
            &[
                out(Environment, 2),
                out(Environment, 2),
                out(Instance(0), 1)
            ]
        ),
        at(17, 0, 1)
    );
    assert_eq!(rt;
        fault_of(&[2], &[out(Instance(0), 1), out(Instance(0), 2)]),
        at(18, 0, 0)
    );
}
