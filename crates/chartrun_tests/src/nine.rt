use crate::shown::check_texts;
use std::test::Fail;

// The nine columns of an alarm system.
const TEXT: &[u8] = b"msc nine;
instance log; in text1 from bus; in text2 from bus; in text3 from bus; endinstance;
instance bus; in alarm from keypad; in alert from keypad2; out text1 to log; out show to display; out ring to siren; out call to radio; in rung from siren; out text2 to log; in sent from radio; out text3 to log; in code from keypad2; out hush to siren; out dark to display; endinstance;
instance siren; in ring from bus; action sound; out rung to bus; in hush from bus; action rest; endinstance;
instance display; in show from bus; action blink; in dark from bus; endinstance;
instance keypad; in opened from door; out alarm to bus; endinstance;
instance keypad2; in moved from hall; out alert to bus; in typed from env; out code to bus; endinstance;
instance radio; in call from bus; out report to env; out sent to bus; endinstance;
instance door; action open; out opened to keypad; endinstance;
instance hall; action move; out moved to keypad2; endinstance;
endmsc;
";

const LINES: &[u8] = b"chart nine 9 37
1 door action open
2 door out opened
3 keypad in opened
4 keypad out alarm
5 bus in alarm
6 hall action move
7 hall out moved
8 keypad2 in moved
9 keypad2 out alert
10 bus in alert
11 bus out text1
12 log in text1
13 bus out show
14 bus out ring
15 bus out call
16 siren in ring
17 siren action sound
18 siren out rung
19 bus in rung
20 bus out text2
21 log in text2
22 display in show
23 display action blink
24 keypad2 in typed
25 keypad2 out code
26 radio in call
27 radio out report
28 radio out sent
29 bus in sent
30 bus out text3
31 log in text3
32 bus in code
33 bus out hush
34 bus out dark
35 siren in hush
36 siren action rest
37 display in dark
runs
";

#[test]
fn nine_columns(rt: HostRuntime) -> Result<(), Fail> {
    check_texts(&rt, rt.alloc(), &[(TEXT, LINES)])
}
