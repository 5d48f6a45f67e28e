use charts::{Chart, Event, Fault, Kind, Peer};
use piles::{Pile, read_pile};
use piletexts::{Command, Lines};
use std::alloc::Global;
use std::test::Fail;
use tabletexts::Unread;

// The fault of the chart on top.
fn fault(heap: Global, text: &[u8]) -> Option<Fault> {
    let pile = read_pile(heap, text).ok()?;
    pile.top()?.fault()
}

// A fault without a place, by the numbers that users know.
fn placeless(number: u8, layer: u8) -> Option<Fault> {
    Some(Fault {
        number,
        instance: 0,
        event: 0,
        layer,
    })
}

#[test]
fn one_hop_after_another(rt: HostRuntime) -> Result<(), Fail> {
    let pile = read_pile(
        rt.alloc(),
        b"table\n1 1\n1 1 0\n2 0 0\n.\ntable\n1 1\n1 1 4\n\n2 0 4\n.\n\nafter",
    )?;
    let Some(chart) = pile.top() else {
        return Err(Fail::new("no chart"));
    };
    assert_eq!(rt; chart.width(), 2);
    assert_eq!(rt; chart.span(), 6);
    assert_eq!(rt;
        chart.event(0, 1),
        Event::new(Kind::Output, Peer::Instance(1), 5)
    );
    assert_eq!(rt;
        chart.event(1, 0),
        Event::new(Kind::Input, Peer::Instance(0), 0)
    );
    Ok(())
}

#[test]
fn the_upper_chart_is_the_second(rt: HostRuntime) -> Result<(), Fail> {
    let pile = read_pile(
        rt.alloc(),
        b"poll 1 1\ntable\n\n.\npoll 2 0\nbeside\nbeside\n",
    )?;
    let Some(chart) = pile.top() else {
        return Err(Fail::new("no chart"));
    };
    assert_eq!(rt; chart.width(), 5);
    assert_eq!(rt; chart.count(0), 2);
    assert_eq!(rt; chart.count(4), 0);
    Ok(())
}

#[test]
fn a_recast_renames(rt: HostRuntime) -> Result<(), Fail> {
    let pile = read_pile(rt.alloc(), b"poll 1 1\nrecast 1\n")?;
    let Some(chart) = pile.top() else {
        return Err(Fail::new("no chart"));
    };
    assert_eq!(rt;
        chart.event(1, 0),
        Event::new(Kind::Output, Peer::Instance(0), 0)
    );
    Ok(())
}

#[test]
fn faults_of_spoiled_parts(rt: HostRuntime) {
    let heap = rt.alloc();
    assert_eq!(rt; fault(heap, b"poll 32 1"), placeless(33, 2));
    assert_eq!(rt;
        fault(heap, b"table\n1\n.\npoll 32 1\nafter"),
        placeless(13, 1)
    );
    assert_eq!(rt;
        fault(heap, b"poll 32 1\ntable\n1\n.\nafter"),
        placeless(33, 2)
    );
    assert_eq!(rt;
        fault(heap, b"table\n1\n.\npoll 32 1\nbeside"),
        placeless(13, 1)
    );
    assert_eq!(rt;
        fault(heap, b"poll 1 1\npoll 32 1\nbeside"),
        placeless(33, 2)
    );
    assert_eq!(rt;
        fault(heap, b"poll 15 1\npoll 16 1\nbeside"),
        placeless(31, 4)
    );
    assert_eq!(rt; fault(heap, b"poll 15 1\npoll 15 1\nbeside"), None);
    assert_eq!(rt; fault(heap, b"poll 1 1\nrecast"), placeless(32, 5));
    assert_eq!(rt; fault(heap, b"table\n.\nrecast"), None);
}

#[test]
fn a_line_that_cannot_be_read(rt: HostRuntime) {
    let cases: [(&[u8], usize); 21] = [
        // a word that is not known
        (b"poll 1 1\nbefore\n", 2),
        (b"poll 1 1\n\n\n1 1\n", 4),
        // an operand that is missing, spare or too large
        (b"poll 1\n", 1),
        (b"poll 1 1 1\n", 1),
        (b"poll 1 256\n", 1),
        (b"table 1\n.\n", 1),
        (b"poll 1 1\nrecast 0 256\n", 2),
        // a chart that is not on the stack
        (b"after\n", 1),
        (b"poll 1 1\nafter\n", 2),
        (b"poll 1 1\n\nbeside\n", 3),
        (b"recast 0\n", 1),
        // lines of a table
        (b"table\n1 x\n.\n", 2),
        (b"poll 1 1\ntable\n1\n1 1\n.\n", 4),
        (b"table\n1\n\n3 255 0 0\n.\n", 4),
        // a table without a line `.`
        (b"table", 2),
        (b"table\n", 2),
        (b"table\n1\n3 255 0", 4),
        (b"table\n1\n3 255 0\n", 4),
        // no chart at the end
        (b"", 1),
        (b"\n", 2),
        (b"\n\n", 3),
    ];
    for (text, line) in cases {
        assert_eq!(rt; read_pile(rt.alloc(), text).err(), Some(Unread::Line(line)));
    }
}

#[test]
fn a_refused_command_leaves_the_stack(rt: HostRuntime) -> Result<(), Fail> {
    let heap = rt.alloc();
    let mut pile = Pile::new(heap);
    let mut lines = Lines::new(b"");
    pile.apply(heap, Command::Poll(1, 1), &mut lines)?;
    for command in [Command::After, Command::Beside] {
        let refused = pile.apply(heap, command, &mut lines);
        assert_eq!(rt; refused, Err(Unread::Line(0)));
        assert_eq!(rt; pile.top().map(|chart| chart.width()), Some(2));
    }
    Ok(())
}
