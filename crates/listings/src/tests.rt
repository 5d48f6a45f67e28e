ghost use Rattle.std.specs.Prelude.{[], Some, refl};

use crate::{chart_line, event_line, fault_line, report, unreadable_line};
use charts::{Chart, Event, Fault, Kind, NO_EVENT, Peer, Summary};
use std::test::Fail;

// Found by no layer of the library.
const FAULT: Fault = Fault {
    number: 17,
    instance: 2,
    event: 300,
    layer: 0,
};

// A chart with a fault and no instances.
#[derive(Drop)]
struct Spoiled;

impl Chart for Spoiled {
    ghost lists = { λ _. [] };

    ghost trouble = { λ _. Some (record { number = 17; instance = 2; event = 300; layer = 0 }) };

    ghost sound = { λ _. refl };

    fn summary(&self) -> Result<Summary, Fault> {
        Err(FAULT)
    }

    fn count(&self, _i: usize) -> usize {
        0
    }

    fn event(&self, _i: usize, _k: usize) -> Event {
        NO_EVENT
    }
}

#[test]
fn a_report_on_a_spoiled_chart_is_its_fault(rt: HostRuntime) -> Result<(), Fail> {
    let text = report(rt.alloc(), &Spoiled)?;
    assert_eq!(rt; text.as_str(), "spoiled 17 2 300 0\n");
    Ok(())
}

#[test]
fn lines_tell_of_a_chart(rt: HostRuntime) -> Result<(), Fail> {
    let heap = rt.alloc();
    let event = Event::new(Kind::Input, Peer::Instance(1), 9);
    assert_eq!(rt; event_line(heap, 0, 3, event)?.as_str(), "0 3 in 1 9");
    let size = Summary {
        width: 3,
        events: 14,
        span: 7,
    };
    assert_eq!(rt; chart_line(heap, size)?.as_str(), "chart 3 14 7");
    assert_eq!(rt; fault_line(heap, FAULT)?.as_str(), "spoiled 17 2 300 0");
    assert_eq!(rt; unreadable_line(heap, 12)?.as_str(), "unreadable 12");
    Ok(())
}
