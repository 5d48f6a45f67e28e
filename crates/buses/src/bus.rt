ghost use Rattle.std.specs.Prelude.{◌≡◌};
ghost use Rattle.media.specs.Media.{free, line, narrow};
ghost use Rattle.buses.specs.Carried.{carried};

use media::Medium;

// What a bus does before it is made narrower.
#[derive(Clone, Copy)]
enum Base {
    Free,
    Line,
}

// A medium that is chosen at run time: free or a line, and made narrower any number of times.
#[derive(Clone, Copy)]
pub struct Bus {
    base: Base,
    // the least room that it was made narrower to
    room: Option<u8>,
}

impl Bus {
    // The medium that carries as `Free` does.
    pub fn free() -> Bus
        ensures { carried result ≡ free }
    {
        Bus {
            base: Base::Free,
            room: None,
        }
    }

    // The medium that carries as `Line` does.
    pub fn line() -> Bus
        ensures { carried result ≡ line }
    {
        Bus {
            base: Base::Line,
            room: None,
        }
    }

    // The medium that carries as `Narrow` of this room over the bus does.
    pub fn narrow(self, room: u8) -> Bus
        ensures { carried result ≡ narrow room (carried self) }
    {
        let least = self.room.map_or(room, |below| below.min(room));
        Bus {
            base: self.base,
            room: Some(least),
        }
    }
}

impl Medium for Bus {
    ghost carries = { carried };

    fn sends(&self, _i: usize, _j: usize, on_the_way: usize) -> bool {
        self.room.is_none_or(|room| on_the_way < usize::from(room))
    }

    fn takes(&self, _i: usize, _j: usize, ahead: usize) -> bool {
        match self.base {
            Base::Free => true,
            Base::Line => ahead == 0,
        }
    }
}
