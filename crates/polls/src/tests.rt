use crate::{MOST_KEYPADS, MOST_ROUNDS, Poll};
use charts::{Chart, Event, Fault, Kind, Layer, NO_EVENT, Peer, Rule, Summary};

#[test]
fn one_keypad_in_one_round(rt: HostRuntime) {
    let poll = Poll::new(1, 1);
    let panel = Peer::Instance(0);
    let keypad = Peer::Instance(1);
    assert_eq!(rt; poll.event(0, 0), Event::new(Kind::Output, keypad, 0));
    assert_eq!(rt; poll.event(0, 1), Event::new(Kind::Input, keypad, 1));
    assert_eq!(rt; poll.event(1, 0), Event::new(Kind::Input, panel, 0));
    assert_eq!(rt; poll.event(1, 1), Event::new(Kind::Output, panel, 1));
    assert_eq!(rt; poll.event(1, 2), NO_EVENT);
}

#[test]
fn the_largest_poll(rt: HostRuntime) {
    let size = Summary {
        width: 32,
        events: 3968,
        span: 1984,
    };
    assert_eq!(rt; Poll::new(MOST_KEYPADS, MOST_ROUNDS).summary(), Ok(size));
}

#[test]
fn one_keypad_too_many(rt: HostRuntime) {
    let poll = Poll::new(32, 32);
    assert_eq!(rt;
        poll.fault(),
        Some(Fault::of_whole(Layer::Poll, Rule::Poll))
    );
    assert_eq!(rt; poll.width(), 0);
    assert_eq!(rt; poll.count(0), 0);
    assert_eq!(rt; poll.event(0, 0), NO_EVENT);
}

#[test]
fn one_round_too_many(rt: HostRuntime) {
    let too_large = Some(Fault::of_whole(Layer::Poll, Rule::Poll));
    assert_eq!(rt; Poll::new(31, 33).fault(), too_large);
    assert_eq!(rt; Poll::new(31, 32).fault(), None);
}

#[test]
fn no_keypads_or_no_rounds(rt: HostRuntime) {
    assert_eq!(rt; Poll::new(0, 5).width(), 1);
    assert_eq!(rt; Poll::new(5, 0).width(), 6);
    assert_eq!(rt; Poll::new(5, 0).count(5), 0);
}
