ghost use Rattle.std.specs.Prelude.{◌≡◌, ℕ, None};
ghost use Rattle.messages.specs.declared.ends.End.{End as Side};
ghost use Rattle.messages.specs.Places.{nowhere, place_of, place_after};

use crate::ends::End;

// Where the two events of one message stand, none where that is not known.
#[derive(Clone, Copy, PartialEq, Eq, Debug)]
struct Ends {
    output: Option<u16>,
    input: Option<u16>,
}

// Where the output and the input of each message stand, as far as they were noted, by the message's number.
#[derive(Drop)]
pub struct MessagePlaces {
    ends: [Ends; 4096],
}

impl Ends {
    fn nowhere() -> Ends
        ensures { result ≡ nowhere }
    {
        Ends {
            output: None,
            input: None,
        }
    }
}

impl MessagePlaces {
    // Nothing noted.
    pub fn new() -> MessagePlaces
        ensures { (end : Side) (number : ℕ) → place_of result end number ≡ None }
    {
        MessagePlaces {
            ends: [Ends::nowhere(); 4096],
        }
    }

    // Where the event of this message stands, none where that was not noted.
    pub fn find(&self, end: End, number: u16) -> Option<u16>
        ensures { result ≡ place_of self.now end number }
    {
        let ends = self.ends.get(usize::from(number))?;
        match end {
            End::Output => ends.output,
            End::Input => ends.input,
        }
    }

    // Notes where the event of this message stands. A number that no sound chart has is passed over.
    pub fn note(&mut self, end: End, number: u16, place: u16)
        ensures { (e : Side) (n : ℕ) → place_of self.new e n ≡ place_after self.old end number place e n }
    {
        let at = usize::from(number);
        if at < self.ends.len() {
            match end {
                End::Output => self.ends[at].output = Some(place),
                End::Input => self.ends[at].input = Some(place),
            }
        }
    }
}
