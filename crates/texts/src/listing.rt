ghost use Rattle.std.specs.Prelude.{◌≡◌, length, replicate};
ghost use Rattle.words.specs.Sentences.{sentences};
ghost use Rattle.items.specs.Surveys.{items_in};
ghost use Rattle.texts.specs.Rows.{no_name};
ghost use Rattle.texts.specs.Whole.{Whole};
ghost use Rattle.texts.specs.Directories.{named_in};
ghost use Rattle.texts.specs.Listing.{ListsNames};

use crate::directory::Directory;
use crate::rows::Name;
use items::Parser;
use words::Fault;

// Notes all names of a text, and writes them into their tables.
pub(crate) fn list_names<'t>(
    text: &'t [u8],
    instances: &mut [Name],
    messages: &mut [Name],
    actions: &mut [Name],
) -> Result<Directory<'t>, Fault>
    requires whole { Whole (sentences text.now) }
    requires no_instances { instances.old ≡ replicate (length instances.old) no_name }
    requires no_messages { messages.old ≡ replicate (length messages.old) no_name }
    requires no_actions { actions.old ≡ replicate (length actions.old) no_name }
    ensures lists { ListsNames (named_in (items_in (sentences text.now))) (length instances.old) (length messages.old) (length actions.old) result instances.new messages.new actions.new }
    ensures instance_room { length instances.new ≡ length instances.old }
    ensures message_room { length messages.new ≡ length messages.old }
    ensures action_room { length actions.new ≡ length actions.old }
{
    let (_, mut parser) = Parser::begin(text)?;
    let mut directory = Directory::new();
    loop {
        let item = parser.next()?;
        if item.is_end() {
            return Ok(directory);
        }
        directory.note(item, instances, messages, actions)?;
    }
}
