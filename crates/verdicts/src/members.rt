ghost use Rattle.std.specs.Prelude.{◌≡◌, ◌≤◌, length, map};
ghost use Rattle.verdicts.specs.Answers.{member_of, rows_of};

use crate::answers::{Member, NO_MEMBER};
use charts::MOST_INSTANCES;
use texts::Name;

impl Member {
    // An instance with its name; with zeros for one that has none.
    fn of(instance: u8, names: &[Name]) -> Member
        ensures { result ≡ member_of names.now instance }
    {
        let instance = usize::from(instance);
        let (start, length) = names
            .get(instance)
            .map_or((0, 0), |name| (name.start, name.length));
        Member {
            instance,
            start,
            length,
        }
    }
}

// The rows of a ring.
pub(crate) fn rows(ring: &[u8], names: &[Name]) -> [Member; 32]
    requires { length ring.now ≤ 32 }
    ensures { result ≡ rows_of names.now ring.now }
{
    let mut rows = [NO_MEMBER; MOST_INSTANCES];
    for (k, instance) in ring.iter().enumerate() {
        rows[k] = Member::of(*instance, names);
    }
    rows
}
