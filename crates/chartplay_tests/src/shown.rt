use plays::{Unplayed, play};
use replies::{reply_lines, text_refusal_line};
use std::alloc::Global;
use std::process::Abort;
use std::test::Fail;

// Plays the calls and the logs on runs of the chart, and compares the line of each with the one beside it.
pub(crate) fn check_calls(
    rt: &impl Abort,
    heap: Global,
    chart: &str,
    medium: &str,
    calls: &[(&str, &str)],
) -> Result<(), Fail> {
    let mut script = format!(in heap; "{chart}{medium}\n")?;
    let mut shown = String::new(heap);
    for (call, line) in calls {
        write!(script, "{call}\n")?;
        write!(shown, "{line}\n")?;
    }
    let played = play(heap, script.as_bytes())?;
    assert_eq!(rt;
        reply_lines(heap, played.turns.as_slice(), played.logs.as_slice())?.as_str(),
        shown.as_str()
    );
    Ok(())
}

// Plays a script whose chart text is refused, and compares the line.
pub(crate) fn check_refused(
    rt: &impl Abort,
    heap: Global,
    script: &str,
    line: &str,
) -> Result<(), Fail> {
    let Err(Unplayed::Text(fault)) = play(heap, script.as_bytes()) else {
        return Err(Fail::new("no text is refused"));
    };
    assert_eq!(rt; text_refusal_line(heap, fault)?.as_str(), line);
    Ok(())
}
