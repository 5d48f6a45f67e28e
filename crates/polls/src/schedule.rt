ghost use Rattle.std.specs.Prelude.{◌≡◌, ◌+◌, ◌*◌, ◌<◌, ◌≤◌, Ok, None, slice_index_or};
ghost use Rattle.charts.specs.Events.{no_event};
ghost use Rattle.charts.specs.Judged.{summed};
ghost use Rattle.charts.specs.Lists.{count_of, event_of};
ghost use Rattle.polling.specs.Polling.{panel_of, keypad_of, polling};

use charts::{Event, Kind, NO_EVENT, Peer, Summary};

// The panel's instance. The keypads are instances 1 and up.
const PANEL: usize = 0;

// The exchanges of a poll within the limits: one with each keypad in turn, round after round.
#[derive(Clone, Copy)]
pub(crate) struct Schedule {
    pub(crate) keypads: usize,
    pub(crate) rounds: usize,
    ghost few: { keypads ≤ 31 },
    ghost short: { rounds ≤ 32 },
}

#[tactic(auto, using(crate::proofs::Counted::places))]
impl Schedule {
    pub(crate) fn size(&self) -> Summary
        ensures { Ok result ≡ summed None (polling self.now.keypads self.now.rounds) }
    {
        let exchanges = self.keypads * self.rounds;
        Summary {
            width: self.keypads + 1,
            events: 4 * exchanges,
            span: 2 * exchanges,
        }
    }

    // The number of events on instance i.
    pub(crate) fn count(&self, i: usize) -> usize
        ensures { result ≡ count_of (polling self.now.keypads self.now.rounds) i }
    {
        match i {
            PANEL => 2 * self.keypads * self.rounds,
            _ if i <= self.keypads => 2 * self.rounds,
            _ => 0,
        }
    }

    // Event k of instance i.
    pub(crate) fn event(&self, i: usize, k: usize) -> Event
        ensures { result ≡ event_of (polling self.now.keypads self.now.rounds) i k }
    {
        if k >= self.count(i) {
            return NO_EVENT;
        }
        match i {
            PANEL => self.panel_event(k),
            keypad => self.keypad_event(keypad, k),
        }
    }

    // Event k of the panel.
    fn panel_event(&self, k: usize) -> Event
        requires { k < 2 * (self.now.keypads * self.now.rounds) }
        ensures { result ≡ slice_index_or (panel_of self.now.keypads self.now.rounds) k no_event }
    {
        let exchange = k / 2;
        let keypad = Peer::Instance((exchange % self.keypads + 1) as u8);
        match k % 2 {
            0 => Event::new(Kind::Output, keypad, poll_number(exchange)),
            _ => Event::new(Kind::Input, keypad, reply_number(exchange)),
        }
    }

    // Event k of a keypad.
    fn keypad_event(&self, keypad: usize, k: usize) -> Event
        requires among { (1 ≤ keypad) × (keypad ≤ self.now.keypads) }
        requires within { k < 2 * self.now.rounds }
        ensures { result ≡ slice_index_or (keypad_of self.now.keypads self.now.rounds keypad) k no_event }
    {
        let exchange = k / 2 * self.keypads + keypad - 1;
        let panel = Peer::Instance(PANEL as u8);
        match k % 2 {
            0 => Event::new(Kind::Input, panel, poll_number(exchange)),
            _ => Event::new(Kind::Output, panel, reply_number(exchange)),
        }
    }
}

// The number of the poll in an exchange, of which there are at most 992.
fn poll_number(exchange: usize) -> u16
    requires { exchange < 992 }
    ensures { result ≡ 2 * exchange }
{
    (2 * exchange) as u16
}

// The number of the reply to it.
fn reply_number(exchange: usize) -> u16
    requires { exchange < 992 }
    ensures { result ≡ 2 * exchange + 1 }
{
    poll_number(exchange) + 1
}
