ghost use Rattle.std.specs.Prelude.{◌≡◌, ℕ, ◌+◌, cond, ◌&&◌, ◌==◌, Some, nat_lt};
ghost use Rattle.messages.specs.declared.ends.End.{End as Side};
ghost use Rattle.messages.specs.Ends.{kind_of};
ghost use Rattle.messages.specs.Places.{place_of};
ghost use Rattle.copies.specs.Kept.{grid_lists};
ghost use Rattle.copies.specs.Noted.{Noted, NotedBefore};

use crate::grid::Grid;
use charts::Event;
use messages::{End, MessagePlaces};

// Notes that the event stands at the place on its instance, if it is one of a message.
fn note(places: &mut MessagePlaces, event: Event, place: u16)
    ensures { (end : Side) (n : ℕ) → place_of places.new end n ≡ cond (event.kind == kind_of end && (n == event.number && nat_lt n 4096)) (Some place) (place_of places.old end n) }
{
    if let Some(end) = End::of(event) {
        places.note(end, event.number, place);
    }
}

// Notes the messages of instance i.
fn note_column(places: &mut MessagePlaces, grid: &Grid, i: usize)
    requires { NotedBefore (grid_lists grid.now) i places.old }
    ensures { NotedBefore (grid_lists grid.now) (i + 1) places.new }
{
    for (k, slot) in grid.column(i).iter().enumerate() {
        note(places, slot.event, k as u16);
    }
}

// Notes the messages of all instances.
#[tactic(auto, using(crate::proofs::Grids::grid_width))]
pub(crate) fn note_messages(places: &mut MessagePlaces, grid: &Grid)
    ensures { Noted (grid_lists grid.now) places.new }
{
    for i in 0..grid.width {
        note_column(places, grid, i);
    }
}
