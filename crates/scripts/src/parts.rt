use piletexts::Command;
use runs::Call;

// What a line does to the medium.
#[derive(Clone, Copy, PartialEq, Eq, Debug)]
pub enum MediumCommand {
    // begins it anew, free
    Free,
    // begins it anew, a line
    Line,
    // makes it narrower
    Narrow(u8),
}

// What a line of a script says.
#[derive(Clone, Copy, PartialEq, Eq, Debug)]
pub enum Statement<'t> {
    // a command to the pile of charts
    Pile(Command),
    // pushes the chart of the text on the lines that follow, up to a line `.`
    Text,
    // a command to the medium
    Medium(MediumCommand),
    // a log, by the hexadecimal digits of its bytes
    Log(&'t [u8]),
    // a call of the run, and the length of the buffer that it is handed
    Call(Call, usize),
}
