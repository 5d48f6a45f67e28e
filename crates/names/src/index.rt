ghost use Rattle.std.specs.Prelude.{◌≡◌, ◌≤◌, None, List, ℕ, true};
ghost use Rattle.names.specs.Numbers.{number_of, count, Notes};
ghost use Rattle.names.specs.Entries.{in_order, IsPlaceOf};

use crate::parts::{Entry, Refusal};
use arrayvec::ArrayVec;
use std::marker::Model;

// No more names are noted.
const MOST: usize = 4096;

// Names, each with the number that it was noted with.
#[derive(Drop)]
pub struct Names<'t> {
    entries: ArrayVec<Entry<'t>, MOST>,
}

// Names are seen as the number that each has. The order that they are kept in, for the search, is not seen.
impl<'t> Model for Names<'t> {
    ghost use Rattle.std.specs.Prelude.{◌≡◌, true};
    ghost use Rattle.names.specs.Numbers.{Numbers, numbers_code};

    ghost Value = { Numbers };

    ghost coded = { numbers_code };

    ghost use Rattle.names.specs.Entries.{numbers_in, in_order};

    ghost view = { λ names. numbers_in names.entries.items };

    ghost invariant = { λ names. in_order names.entries.items ≡ true };
}

// Where the name stands, or where it has to go.
fn place_of(entries: &[Entry], name: &[u8]) -> Result<usize, usize>
    requires { in_order entries.now ≡ true }
    ensures { IsPlaceOf entries.now name.now result }
{
    entries.binary_search_by(|entry| entry.name.cmp(name))
}

impl<'t> Names<'t> {
    // No name.
    #[tactic(auto, using(crate::proofs::Noting::none_of_none, crate::proofs::Noting::count_of_none))]
    pub fn new() -> Names<'t>
        ensures none { (name : List ℕ) → number_of result name ≡ None }
        ensures count { count result ≡ 0 }
    {
        Names {
            entries: ArrayVec::new(),
        }
    }

    // How many names are noted.
    #[tactic(auto, using(crate::proofs::Noting::as_many_names))]
    pub fn len(&self) -> usize
        ensures value { result ≡ count self.now }
        ensures fits { result ≤ 4096 }
    {
        self.entries.len()
    }

    // The number that the name was noted with, none where it was not.
    #[tactic(auto, using(crate::proofs::Noting::number_there, crate::proofs::Noting::number_none))]
    pub fn find(&self, name: &[u8]) -> Option<u16>
        ensures { result ≡ number_of self.now name.now }
    {
        let entries = self.entries.as_slice();
        match place_of(entries, name) {
            Ok(at) => Some(entries[at].number),
            Err(_) => None,
        }
    }

    // Notes a new name with its number. A name that was noted before is refused, and any other where 4,096 are noted; then nothing changes.
    #[tactic(auto, using(crate::proofs::Noting::repeated, crate::proofs::Noting::not_there, crate::proofs::Noting::no_room, crate::proofs::Noting::still_in_order))]
    pub fn note(&mut self, name: &'t [u8], number: u16) -> Result<(), Refusal>
        ensures { Notes self.old name.now number result self.new }
    {
        let Err(at) = place_of(self.entries.as_slice(), name) else {
            return Err(Refusal::Repeated);
        };
        if self.entries.is_full() {
            return Err(Refusal::Full);
        }
        self.entries.insert(at, Entry { name, number });
        Ok(())
    }
}
