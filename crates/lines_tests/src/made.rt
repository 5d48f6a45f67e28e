use crate::late::{Tables, late_tables};
use charts::Chart;
use std::process::Abort;
use texts::Name;

#[test]
fn the_chart_is_of_the_rows_in_use(rt: HostRuntime) {
    let tables = late_tables();
    let Some(listing) = tables.listing() else {
        panic!(rt; "no listing");
    };
    let chart = listing.chart();
    assert_eq!(rt; (chart.width(), chart.span()), (3, 2));
    for (i, count) in [2, 3, 0, 0].iter().enumerate() {
        assert_eq!(rt; chart.count(i), *count);
    }
    assert_eq!(rt; chart.event(1, 2), tables.events[4]);
}

// Whether the tables are refused.
fn refused(tables: Tables) -> bool {
    tables.listing().is_none()
}

#[test]
fn tables_without_the_rows_are_refused(rt: HostRuntime) {
    for (instances, events, messages, actions) in [
        (4, 5, 2, 1),
        (3, 6, 2, 1),
        (3, 5, 3, 1),
        (3, 5, 2, 3),
        (18446744073709551615, 5, 2, 1),
    ] {
        let mut short = late_tables();
        short.counts.instances = instances;
        short.counts.events = events;
        short.counts.messages = messages;
        short.counts.actions = actions;
        assert!(rt; refused(short));
    }
}

#[test]
fn rows_that_are_no_names_are_refused(rt: HostRuntime) {
    let cases = [
        // whether the row is no name in a text of 183 bytes
        (182, 1, false),
        (0, 16, false),
        (0, 0, true),
        (0, 17, true),
        (183, 0, true),
        (183, 1, true),
        (167, 16, false),
        (168, 16, true),
        (184, 1, true),
        (18446744073709551615, 1, true),
        (1, 18446744073709551615, true),
    ];
    for (start, length, none) in cases {
        let name = Name { start, length };
        let mut instance = late_tables();
        instance.instances[2] = name;
        assert_eq!(rt; refused(instance), none);
        let mut message = late_tables();
        message.messages[0] = name;
        assert_eq!(rt; refused(message), none);
        let mut action = late_tables();
        action.actions[0] = name;
        assert_eq!(rt; refused(action), none);
        // a row that is not in use may be any
        let mut unused = late_tables();
        unused.actions[1] = name;
        assert!(rt; !refused(unused));
    }
}
