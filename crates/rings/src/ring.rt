ghost use Rattle.std.specs.Prelude.{◌≡◌, ◌≤◌, [], length};
ghost use Rattle.rules.specs.Boards.{lists_of, positions};
ghost use Rattle.rings.specs.Members.{members_of};
ghost use Rattle.rings.specs.Walks.{ring_of};

use crate::parts::Ring;
use crate::walk::walk;
use rules::Board;

impl Ring {
    // No instance.
    pub(crate) fn none() -> Ring
        ensures { members_of result ≡ [] }
    {
        Ring {
            cells: [0; 32],
            len: 0,
        }
    }

    // The ring of these instances.
    pub(crate) fn from_members(members: &[u8]) -> Ring
        requires { length members.now ≤ 32 }
        ensures { members_of result ≡ members.now }
    {
        let mut cells = [0; 32];
        cells[..members.len()].copy_from_slice(members);
        Ring {
            cells,
            len: members.len(),
        }
    }

    // The ring that the waits reach from the lowest unfinished instance; none where every instance has finished, since the walk then starts past the last one.
    pub fn of(board: &Board) -> Ring
        ensures { members_of result ≡ ring_of (lists_of board.now) (positions board.now) }
    {
        let first = board.lowest_unfinished().unwrap_or(board.width());
        walk(board, first)
    }

    // The instances of the ring, in the order in which the walk met them.
    pub fn members(&self) -> &[u8]
        ensures value { result.now ≡ members_of self.now }
        ensures fits { length result.now ≤ 32 }
    {
        &self.cells[..self.len]
    }
}
