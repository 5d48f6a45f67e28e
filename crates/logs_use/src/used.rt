use charts::{Event, Kind, Peer};
use logs::{Verdict, Waiting};
use media::{Free, Medium};
use runs::Run;
use tables::Table;

// Follows a log of one entry, given by its three records: the verdict, none where a record is refused.
fn follow_one<M: Medium>(
    run: &mut Run<M>,
    head: &[u8],
    entry: &[u8],
    end: &[u8],
) -> Option<Verdict> {
    let waiting = Waiting::new();
    let begun = match waiting.head(run, head) {
        Ok(following) => following,
        Err((waiting, _)) => {
            waiting.leave();
            return None;
        }
    };
    let following = match begun.event(run, entry) {
        Ok(following) => following,
        Err((following, _)) => {
            following.leave();
            return None;
        }
    };
    match following.end(run, end) {
        Ok((closed, verdict)) => {
            closed.leave();
            Some(verdict)
        }
        Err((following, _)) => {
            following.leave();
            None
        }
    }
}

#[test]
fn a_log_of_one_action(rt: HostRuntime) {
    let action = [Event::new(Kind::Action, Peer::Environment, 7)];
    let mut run = Run::new(&Table::new(&[1], &action), Free);
    let verdict = follow_one(
        &mut run,
        &[3, 0, 1, 0, 1, 1, 0],
        &[4, 0, 2, 0, 0, 3, 7, 0],
        &[2, 0, 3, 0, 1, 0],
    );
    assert_eq!(rt; verdict, Some(Verdict::Full));
}
