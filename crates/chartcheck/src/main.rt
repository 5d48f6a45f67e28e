// Checks the chart of a table or a pile on standard input, or a poll by its size, and shows what was found.
#![tactic(auto)]

use anyhow::anyhow;
use charts::Chart;
use listings::{report, unreadable_line};
use piles::read_pile;
use piletexts::read_command;
use polls::Poll;
use std::env;
use std::io::Read;
use tables::Table;
use tabletexts::{Unread, cut, read};

// What the arguments ask for.
#[derive(Drop)]
enum Wanted {
    Input,
    Poll(usize, usize),
    Help,
}

// The number that the word writes in decimal; one too large to hold is as large as can be held, and not none as in a table.
fn size(word: &str) -> Option<usize> {
    if word.is_empty() || !word.bytes().all(|b| b.is_ascii_digit()) {
        return None;
    }
    Some(word.parse().unwrap_or(usize::MAX))
}

// No argument asks for the table or the pile on standard input, `poll N R` for the poll of N keypads in R rounds.
fn asked(rt: &HostRuntime) -> anyhow::Result<Wanted> {
    let words = env::args(rt)?.collect::<Vec<String>>(rt.alloc())?;
    Ok(match words.as_slice() {
        [] | [_] => Wanted::Input,
        [_, poll, keypads, rounds] if poll.as_str() == "poll" => {
            match (size(keypads.as_str()), size(rounds.as_str())) {
                (Some(n), Some(r)) => Wanted::Poll(n, r),
                (_, _) => Wanted::Help,
            }
        }
        _ => Wanted::Help,
    })
}

fn show<C: Chart>(rt: &HostRuntime, chart: &C) -> anyhow::Result<()> {
    rt.print(report(rt.alloc(), chart)?)?;
    Ok(())
}

// Shows why a text was not read.
fn show_unread(rt: &HostRuntime, why: Unread) -> anyhow::Result<()> {
    match why {
        Unread::Line(line) => {
            rt.println(unreadable_line(rt.alloc(), line)?)?;
            Ok(())
        }
        Unread::Memory => Err(anyhow!("no memory")),
    }
}

fn show_table(rt: &HostRuntime, text: &[u8]) -> anyhow::Result<()> {
    match read(rt.alloc(), text) {
        Ok(table) => show(
            rt,
            &Table::new(table.lengths.as_slice(), table.events.as_slice()),
        ),
        Err(why) => show_unread(rt, why),
    }
}

fn show_pile(rt: &HostRuntime, text: &[u8]) -> anyhow::Result<()> {
    match read_pile(rt.alloc(), text) {
        Ok(pile) => match pile.top() {
            Some(chart) => show(rt, chart),
            None => Ok(()),
        },
        Err(why) => show_unread(rt, why),
    }
}

// A text is a pile where its first line is a command, else a table.
fn show_input(rt: &HostRuntime) -> anyhow::Result<()> {
    let mut text = Vec::new(rt.alloc());
    rt.stdin().read_to_end(&mut text)?;
    let (first, _) = cut(text.as_slice(), b'\n');
    match read_command(first) {
        Some(_) => show_pile(rt, text.as_slice()),
        None => show_table(rt, text.as_slice()),
    }
}

fn run(rt: &HostRuntime) -> anyhow::Result<()> {
    match asked(rt)? {
        Wanted::Input => show_input(rt),
        Wanted::Poll(keypads, rounds) => show(rt, &Poll::new(keypads, rounds)),
        Wanted::Help => {
            rt.eprintln("usage: chartcheck < TABLE, or chartcheck poll N R")?;
            Ok(())
        }
    }
}

// An error is told on standard error; the status is 0 all the same.
fn main(rt: HostRuntime) {
    if let Err(e) = run(&rt) {
        let _ = eprintln!(rt; "Error: {e}");
    }
}
