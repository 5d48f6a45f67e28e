ghost use Rattle.std.specs.Prelude.{◌≡◌, ◌≤◌, length};
ghost use Rattle.lines.specs.Lines.{event_name, instance_name};

use crate::listing::Listing;
use crate::rows::name_at;
use charts::{Event, Kind};

impl Listing<'_, '_> {
    // The name of an instance, `?` where there is none.
    pub(crate) fn instance_name(&self, instance: usize) -> &[u8]
        ensures bytes { result.now ≡ instance_name self.now instance }
        ensures few { length result.now ≤ 16 }
    {
        name_at(self.reading.text, self.instances, instance)
    }

    // The name of an event's message or action, `?` where there is none.
    pub(crate) fn event_name(&self, event: Event) -> &[u8]
        ensures bytes { result.now ≡ event_name self.now event }
        ensures few { length result.now ≤ 16 }
    {
        let number = usize::from(event.number);
        match Kind::try_from(event.kind) {
            Ok(Kind::Output | Kind::Input) => name_at(self.reading.text, self.messages, number),
            Ok(Kind::Action) => name_at(self.reading.text, self.actions, number),
            Err(_) => b"?",
        }
    }
}
