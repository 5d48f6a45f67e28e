ghost use Rattle.std.specs.Prelude.{◌≡◌};
ghost use Rattle.bench.specs.Rows.{call_of};

use runs::Call;

// A row of the bench: a chart over a medium, and a call on a new run.
#[derive(Clone, Copy, PartialEq, Eq, Debug)]
pub enum Row {
    // the chart without instances, judged
    Empty,
    // late, a free bus: the latest places of the log's text, its input, the siren's ring and its sound
    LateText,
    LateTextTaken,
    LateRing,
    LateSound,
    // cross, a free bus, judged
    Cross,
    // over, judged: a free bus, one in line, and with room for one and for two
    OverFree,
    OverInLine,
    OverRoomForOne,
    OverRoomForTwo,
    // hop, a bus with no room, judged
    HopNoRoom,
    // a poll of one keypad in one round, driven four steps
    PollDriven,
    // hop after hop: the latest place of the first instance's second event
    HopAfterHop,
    // hop beside hop: the latest place of the first instance's first event
    HopBesideHop,
    // an instance that sends a message to itself, judged
    ToItself,
}

impl Row {
    // Every row.
    pub const ALL: [Row; 15] = [
        Row::Empty,
        Row::LateText,
        Row::LateTextTaken,
        Row::LateRing,
        Row::LateSound,
        Row::Cross,
        Row::OverFree,
        Row::OverInLine,
        Row::OverRoomForOne,
        Row::OverRoomForTwo,
        Row::HopNoRoom,
        Row::PollDriven,
        Row::HopAfterHop,
        Row::HopBesideHop,
        Row::ToItself,
    ];

    // The call of the row.
    pub fn call(self) -> Call
        ensures { result ≡ call_of self }
    {
        match self {
            Row::LateText | Row::HopBesideHop => Call::Latest(0, 0),
            Row::LateTextTaken => Call::Latest(1, 0),
            Row::LateRing => Call::Latest(2, 0),
            Row::LateSound => Call::Latest(2, 1),
            Row::HopAfterHop => Call::Latest(0, 1),
            Row::PollDriven => Call::Drive(4),
            Row::Empty
            | Row::Cross
            | Row::OverFree
            | Row::OverInLine
            | Row::OverRoomForOne
            | Row::OverRoomForTwo
            | Row::HopNoRoom
            | Row::ToItself => Call::Judge,
        }
    }
}
