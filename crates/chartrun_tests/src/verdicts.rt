use crate::shown::check_texts;
use std::test::Fail;

#[test]
fn charts_that_run(rt: HostRuntime) -> Result<(), Fail> {
    check_texts(
        &rt,
        rt.alloc(),
        &[
            // no instances
            (b"msc c;endmsc;", b"chart c 0 0\nruns\n"),
            // an instance without events
            (
                b"msc c;instance a;endinstance;endmsc;",
                b"chart c 1 0\nruns\n",
            ),
            // one message
            (
                b"msc hop;instance a;out m to b;endinstance;instance b;in m from a;endinstance;endmsc;",
                b"chart hop 2 2\n1 a out m\n2 b in m\nruns\n",
            ),
            // two messages, one of which overtakes the other
            (
                b"msc over;instance a;out m to b;out n to b;endinstance;instance b;in n from a;in m from a;endinstance;endmsc;",
                b"chart over 2 4\n1 a out m\n2 a out n\n3 b in n\n4 b in m\nruns\n",
            ),
            // a later instance goes first
            (
                b"msc late;instance log;out text to bus;endinstance;instance bus;in text from log;in ring from siren;endinstance;instance siren;out ring to bus;action sound;endinstance;endmsc;",
                b"chart late 3 5\n1 log out text\n2 bus in text\n3 siren out ring\n4 bus in ring\n5 siren action sound\nruns\n",
            ),
            // the lowest instance that may run goes next, also after a higher one
            (
                b"msc back;instance a;in m from b;action x;endinstance;instance b;action y;out m to a;action x;endinstance;endmsc;",
                b"chart back 2 5\n1 b action y\n2 b out m\n3 a in m\n4 a action x\n5 b action x\nruns\n",
            ),
            // a message to oneself
            (
                b"msc own;instance a;out m to a;in m from a;endinstance;endmsc;",
                b"chart own 1 2\n1 a out m\n2 a in m\nruns\n",
            ),
            // messages with the environment
            (
                b"msc c;instance a;in m from env;out n to env;endinstance;endmsc;",
                b"chart c 1 2\n1 a in m\n2 a out n\nruns\n",
            ),
            // one name for an instance, a message, an action and the chart
            (
                b"msc a;instance a;out a to env;action a;endinstance;endmsc;",
                b"chart a 1 2\n1 a out a\n2 a action a\nruns\n",
            ),
        ],
    )
}

#[test]
fn charts_that_get_stuck(rt: HostRuntime) -> Result<(), Fail> {
    check_texts(
        &rt,
        rt.alloc(),
        &[
            // two instances that wait for each other
            (
                b"msc cross;instance a;in p from b;out q to b;endinstance;instance b;in q from a;out p to a;endinstance;endmsc;",
                b"chart cross 2 4\nstuck a b\n",
            ),
            // an instance that waits for itself
            (
                b"msc own;instance a;in m from a;out m to a;endinstance;endmsc;",
                b"chart own 1 2\nstuck a\n",
            ),
            // three in a ring that the lowest instance waits for, and an event that runs before
            (
                b"msc ring;instance a;action x;in m from b;endinstance;instance b;in n from d;out m to a;out o to c;endinstance;instance c;in o from b;out p to d;endinstance;instance d;in p from c;out n to b;endinstance;endmsc;",
                b"chart ring 4 9\nstuck b d c\n",
            ),
        ],
    )
}
