use charts::Chart;
use flats::Flat;
use std::alloc::Global;
use std::process::Abort;
use std::test::Fail;

// Holds the copy of a chart against the chart, also past its instances and events.
pub(crate) fn check_copy<C: Chart>(rt: &impl Abort, heap: Global, chart: &C) -> Result<(), Fail> {
    check_same(rt, &Flat::new(heap, chart)?, chart);
    Ok(())
}

pub(crate) fn check_same<A: Chart, B: Chart>(rt: &impl Abort, a: &A, b: &B) {
    assert_eq!(rt; a.summary(), b.summary());
    for i in 0..33 {
        assert_eq!(rt; a.count(i), b.count(i));
        for k in 0..b.count(i).saturating_add(2) {
            assert_eq!(rt; a.event(i, k), b.event(i, k));
        }
    }
}
