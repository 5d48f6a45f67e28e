ghost use Rattle.std.specs.Prelude.{◌≡◌, ℕ, length, replicate};
ghost use Rattle.texts.specs.Directories.{Named, Holds, Few, none_named, with_named, NotesNames};
ghost use Rattle.texts.specs.Rows.{no_name};

use crate::noting::note_name;
use crate::rows::Name;
use charts::Kind;
use items::Item;
use names::Names;
use words::Fault;

// The names of a text, each with its number: of instances, of messages and of actions.
#[derive(Drop)]
pub(crate) struct Directory<'t> {
    pub(crate) instances: Names<'t>,
    pub(crate) messages: Names<'t>,
    pub(crate) actions: Names<'t>,
}

impl<'t> Directory<'t> {
    // Of no names.
    #[tactic(auto, using(crate::proofs::Noted::lists_none))]
    pub(crate) fn new() -> Directory<'t>
        ensures { (i m a : ℕ) → Holds result (replicate i no_name) (replicate m no_name) (replicate a no_name) none_named }
    {
        Directory {
            instances: Names::new(),
            messages: Names::new(),
            actions: Names::new(),
        }
    }

    // Notes the name that an item brings, and writes a new one into the next row of its table.
    pub(crate) fn note(
        &mut self,
        item: Item<'t>,
        instances: &mut [Name],
        messages: &mut [Name],
        actions: &mut [Name],
    ) -> Result<(), Fault>
        ensures notes { (s : Named) → Few (with_named s item.entry) → Holds self.old instances.old messages.old actions.old s → NotesNames (with_named s item.entry) (length instances.old) (length messages.old) (length actions.old) result self.new instances.new messages.new actions.new }
        ensures instance_room { length instances.new ≡ length instances.old }
        ensures message_room { length messages.new ≡ length messages.old }
        ensures action_room { length actions.new ≡ length actions.old }
    {
        match item {
            Item::Instance(name) => note_name(&mut self.instances, instances, name),
            Item::Event(event) => match event.kind {
                Kind::Action => note_name(&mut self.actions, actions, event.name),
                Kind::Output | Kind::Input => note_name(&mut self.messages, messages, event.name),
            },
            Item::InstanceEnd | Item::End => Ok(()),
        }
    }
}
