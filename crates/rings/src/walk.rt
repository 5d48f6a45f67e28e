ghost use Rattle.std.specs.Prelude.{◌≡◌, ◌<◌, [], ◌∷◌, ◌++◌, length, MatchOption};
ghost use Rattle.rules.specs.Boards.{lists_of, positions};
ghost use Rattle.rings.specs.Members.{members_of, FirstAt, Nowhere};
ghost use Rattle.rings.specs.Walks.{waits_on, walk_from};

use crate::parts::Ring;
use arrayvec::ArrayVec;
use rules::Board;

// The first place of x among those met.
fn find(met: &[u8], x: u8) -> Option<usize>
    ensures { MatchOption result (Nowhere met.now x) (λ k. FirstAt met.now x k) }
{
    met.iter().position(|y| *y == x)
}

// Meets instance x, and answers what it waits for, itself where it has finished.
fn meet(board: &Board, path: &mut ArrayVec<u8, 32>, x: usize) -> usize
    requires instance { x < 32 }
    requires room { length path.old.items < 32 }
    ensures met { path.new.items ≡ path.old.items ++ (x ∷ []) }
    ensures next { result ≡ waits_on (lists_of board.now) (positions board.now) x }
{
    path.push(x as u8);
    board.waits_for(x)
}

// Follows the waits from one instance to the next until one is met twice: from its first place on the path is a ring.
pub(crate) fn walk(board: &Board, from: usize) -> Ring
    ensures { members_of result ≡ walk_from (lists_of board.now) (positions board.now) from }
{
    let mut path = ArrayVec::new();
    let mut x = from;
    while x < board.width() {
        if let Some(start) = find(path.as_slice(), x as u8) {
            return Ring::from_members(&path[start..]);
        }
        x = meet(board, &mut path, x);
    }
    Ring::none()
}
