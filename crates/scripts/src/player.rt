// A script that is played line by line and printed again.
use crate::page::Page;
use crate::refusal::Refusal;
use std::io::{BufRead, BufReader};
use std::process::ExitCode;

/// What the lines of a script are played on.
pub trait Player {
    /// Plays the line at a place of the script, which is printed already, and puts on the page what comes
    /// below it, each line after two spaces. Refused where the line says something that isn't known.
    fn play(&mut self, page: &mut Page, lines: &[String], place: usize);
}

fn read_lines(rt: &HostRuntime) -> Result<Vec<String>, Refusal> {
    let mut lines = Vec::new(rt.alloc());
    for line in BufReader::new(rt.alloc(), rt.reader())?.lines(rt.alloc()) {
        lines.push(line?)?;
    }
    Ok(lines)
}

fn print_page(rt: &HostRuntime, page: &Page) -> Result<(), Refusal> {
    match page.refusal() {
        Some(refusal) => Err(refusal),
        None => Ok(print!(rt; "{}", page.as_str())?),
    }
}

// What the script expects is passed over, and printed anew as it comes.
fn play_line<P: Player>(
    rt: &HostRuntime,
    player: &mut P,
    lines: &[String],
    place: usize,
    line: &str,
) -> Result<(), Refusal> {
    if line.starts_with("  ") {
        return Ok(());
    }
    println!(rt; "{line}")?;
    let mut page = Page::new(rt.alloc());
    player.play(&mut page, lines, place);
    print_page(rt, &page)
}

// The place of the line that ended the script, counted from 1, and why.
fn play_lines<P: Player>(
    rt: &HostRuntime,
    player: &mut P,
    lines: &[String],
) -> Result<(), (usize, Refusal)> {
    for (place, line) in lines.iter().enumerate() {
        if let Err(refusal) = play_line(rt, player, lines, place, line.as_str()) {
            return Err((place.saturating_add(1), refusal));
        }
    }
    Ok(())
}

// The same, and 0 where the script wasn't read.
fn play<P: Player>(rt: &HostRuntime, player: &mut P) -> Result<(), (usize, Refusal)> {
    match read_lines(rt) {
        Ok(lines) => play_lines(rt, player, lines.as_slice()),
        Err(refusal) => Err((0, refusal)),
    }
}

/// Plays the script on standard input. Each line that doesn't begin with two spaces is printed again, and
/// what it says is done; those that do are what the script expects, and what comes is printed in their
/// place. So a script that expects what comes is printed as it stands. A line that can't be read ends the
/// script with the status 2, and `line N: ` and what it is.
pub fn play_all<P: Player>(rt: &HostRuntime, player: &mut P) -> ExitCode {
    match play(rt, player) {
        Ok(()) => ExitCode::SUCCESS,
        Err((number, refusal)) => {
            let _printed = println!(rt; "line {number}: {refusal}");
            ExitCode::from(2)
        }
    }
}
