ghost use Rattle.std.specs.Prelude.{◌≡◌, Some, IfSome};
ghost use Rattle.std.specs.Option.{option_map};
ghost use Rattle.scripts.specs.Statements.{Said, said, statement_on, HasDigitsOf, Writes};

use crate::calls::read_call;
use crate::log_lines::read_log;
use crate::media_lines::read_medium;
use crate::parts::Statement;
use piletexts::{read_command, same};
use tabletexts::cut;

// The statement on a line, none where the line writes none. No line writes two.
#[tactic(auto, using(crate::proofs::Words::read_alone))]
pub fn read_statement(line: &[u8]) -> Option<Statement<'_>>
    ensures value { option_map said result ≡ statement_on line.now }
    ensures digits { IfSome result (λ s. HasDigitsOf line.now s) }
    ensures alone { (s : Said) → Writes line.now s → option_map said result ≡ Some s }
{
    if let Some(command) = read_command(line) {
        return Some(Statement::Pile(command));
    }
    if same(line, b"text") {
        return Some(Statement::Text);
    }
    let (word, operands) = cut(line, b' ');
    if let Some(command) = read_medium(word, operands) {
        return Some(Statement::Medium(command));
    }
    if let Some(digits) = read_log(word, operands) {
        return Some(Statement::Log(digits));
    }
    let (call, room) = read_call(word, operands)?;
    Some(Statement::Call(call, room))
}
