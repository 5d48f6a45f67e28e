ghost use Rattle.std.specs.Prelude.{◌≡◌, ◌≤◌, length, replicate, IfOk, IfErr};
ghost use Rattle.charts.specs.Events.{no_event};
ghost use Rattle.words.specs.Sentences.{sentences};
ghost use Rattle.texts.specs.Rows.{no_name};
ghost use Rattle.texts.specs.Readings.{Reads, rooms, tables};
ghost use Rattle.texts.specs.Refusing.{ReadsOrRefuses};
ghost use Rattle.texts.specs.Takes.{Takes};

use crate::filling::fill_tables;
use crate::listing::list_names;
use crate::noting::SHORT_TABLE;
use crate::reading::Reading;
use crate::rows::{NO_NAME, Name};
use crate::soundness::check_chart;
use charts::{Event, NO_EVENT};
use items::survey;
use words::Fault;

// Writes zeros into all tables.
fn clear(
    lengths: &mut [u16],
    events: &mut [Event],
    instances: &mut [Name],
    messages: &mut [Name],
    actions: &mut [Name],
)
    ensures lengths { lengths.new ≡ replicate (length lengths.old) 0 }
    ensures events { events.new ≡ replicate (length events.old) no_event }
    ensures instances { instances.new ≡ replicate (length instances.old) no_name }
    ensures messages { messages.new ≡ replicate (length messages.old) no_name }
    ensures actions { actions.new ≡ replicate (length actions.old) no_name }
{
    lengths.fill(0);
    events.fill(NO_EVENT);
    instances.fill(NO_NAME);
    messages.fill(NO_NAME);
    actions.fill(NO_NAME);
}

// Reads a chart text into tables of zeros.
fn read_tables<'t>(
    text: &'t [u8],
    lengths: &mut [u16],
    events: &mut [Event],
    instances: &mut [Name],
    messages: &mut [Name],
    actions: &mut [Name],
) -> Result<Reading<'t>, Fault>
    requires no_lengths { lengths.old ≡ replicate (length lengths.old) 0 }
    requires no_events { events.old ≡ replicate (length events.old) no_event }
    requires no_instances { instances.old ≡ replicate (length instances.old) no_name }
    requires no_messages { messages.old ≡ replicate (length messages.old) no_name }
    requires no_actions { actions.old ≡ replicate (length actions.old) no_name }
    ensures reads { ReadsOrRefuses (sentences text.now) (rooms (tables lengths.old events.old instances.old messages.old actions.old)) result (tables lengths.new events.new instances.new messages.new actions.new) }
    ensures length_room { length lengths.new ≡ length lengths.old }
    ensures event_room { length events.new ≡ length events.old }
    ensures instance_room { length instances.new ≡ length instances.old }
    ensures message_room { length messages.new ≡ length messages.old }
    ensures action_room { length actions.new ≡ length actions.old }
    ensures of_text { IfOk result (λ reading. reading.text.now ≡ text.now) }
{
    let size = survey(text)?;
    if size.instances > lengths.len() || size.events > events.len() {
        return Err(SHORT_TABLE);
    }
    let directory = list_names(text, instances, messages, actions)?;
    fill_tables(text, &directory, lengths, events)?;
    check_chart(text, &lengths[..size.instances], &events[..size.events])?;
    Ok(Reading {
        text,
        title: size.title,
        instances: size.instances,
        events: size.events,
        messages: directory.messages.len(),
        actions: directory.actions.len(),
    })
}

// Reads a chart text into tables that hold anything; where it is refused they are zeros then.
fn read_or_clear<'t>(
    text: &'t [u8],
    lengths: &mut [u16],
    events: &mut [Event],
    instances: &mut [Name],
    messages: &mut [Name],
    actions: &mut [Name],
) -> Result<Reading<'t>, Fault>
    ensures reads { Reads (sentences text.now) (rooms (tables lengths.old events.old instances.old messages.old actions.old)) result (tables lengths.new events.new instances.new messages.new actions.new) }
    ensures of_text { IfOk result (λ reading. reading.text.now ≡ text.now) }
{
    clear(lengths, events, instances, messages, actions);
    match read_tables(text, lengths, events, instances, messages, actions) {
        Ok(reading) => Ok(reading),
        Err(fault) => {
            clear(lengths, events, instances, messages, actions);
            Err(fault)
        }
    }
}

// Reads a chart text: fills the tables, with zeros in the rows that are not used, and answers the text's name and how many rows are in use; or tells its first fault, and leaves tables of zeros.
#[tactic(auto, using(crate::proofs::Taking::takes, crate::proofs::Placing::refused_within))]
pub fn read<'t>(
    text: &'t [u8],
    lengths: &mut [u16],
    events: &mut [Event],
    instances: &mut [Name],
    messages: &mut [Name],
    actions: &mut [Name],
) -> Result<Reading<'t>, Fault>
    ensures reads { Reads (sentences text.now) (rooms (tables lengths.old events.old instances.old messages.old actions.old)) result (tables lengths.new events.new instances.new messages.new actions.new) }
    ensures takes { Takes text.now (rooms (tables lengths.old events.old instances.old messages.old actions.old)) result (tables lengths.new events.new instances.new messages.new actions.new) }
    ensures of_text { IfOk result (λ reading. reading.text.now ≡ text.now) }
    ensures within { IfErr result (λ fault. fault.byte ≤ length text.now) }
{
    read_or_clear(text, lengths, events, instances, messages, actions)
}
