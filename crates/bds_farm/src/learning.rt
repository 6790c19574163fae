//! What lines teach.
ghost use Rattle.std.specs.Prelude.{◌≡◌, ◌<◌, ◌≤◌, ◌+◌, OnOk, IfOk, Option, ℕ, drop, length};
ghost use Rattle.bds_farm.specs.Farm.{GivesOr, Halfway, IsPlace, IsToldBy, LearnsLine, LearnsLines, Queue};
ghost use Rattle.bds_farm.specs.Farm.{line_at, lines, without};

use crate::lines::code_of;
use bds_value::NoMemory;

/// Leaves out the entries of a task.
pub fn leave_out(entries: &mut Vec<(u32, u32)>, task: u32)
    ensures { entries.new.items ≡ without task entries.old.items }
{
    entries.retain(|entry| entry.0 != task);
}

/// The end of which open submission a line tells, with its code.
#[tactic(auto, using(crate::proofs::Told::tells))]
fn told_by(open_ends: &[(u32, u32)], line: &[u8]) -> Option<(u32, u8)>
    ensures { IsToldBy open_ends.now line.now result }
{
    match open_ends {
        [] => None,
        [entry, others @ ..] => match code_of(entry.0, entry.1, line) {
            Some(code) => Some((entry.0, code)),
            None => told_by(others, line),
        },
    }
}

/// Learns what a line tells: an end of an open submission, or nothing.
fn learn_line(
    open_ends: &mut Vec<(u32, u32)>,
    ends: &mut Vec<(u32, u8)>,
    line: &[u8],
) -> Result<(), NoMemory>
    ensures { OnOk result ((last : Option ℕ) → LearnsLine line.now
        (record { last = last; open_ends = open_ends.old.items; ends = ends.old.items })
        (record { last = last; open_ends = open_ends.new.items; ends = ends.new.items })) }
{
    match told_by(open_ends.as_slice(), line) {
        Some((task, code)) => {
            ends.push((task, code))?;
            leave_out(open_ends, task);
            Ok(())
        }
        None => Ok(()),
    }
}

/// Learns the line that ends at a place, where one does; and gives where the next line begins.
fn learn_ended(
    open_ends: &mut Vec<(u32, u32)>,
    ends: &mut Vec<(u32, u8)>,
    text: &[u8],
    start: usize,
    i: usize,
) -> Result<usize, NoMemory>
    requires within { start ≤ i }
    requires inside { i < length text.now }
    ensures { IfOk result (λ next. (last : Option ℕ) (from : Queue) →
        Halfway from text.now (line_at text.now start i) (drop i text.now)
        (record { last = last; open_ends = open_ends.old.items; ends = ends.old.items }) →
        (next ≤ i + 1) × Halfway from text.now (line_at text.now next (i + 1)) (drop (i + 1) text.now)
        (record { last = last; open_ends = open_ends.new.items; ends = ends.new.items })) }
{
    if text[i] == b'\n' {
        learn_line(open_ends, ends, &text[start..i])?;
        Ok(i + 1)
    } else {
        Ok(start)
    }
}

/// Learns what each line of a text tells.
pub fn learn_text(
    open_ends: &mut Vec<(u32, u32)>,
    ends: &mut Vec<(u32, u8)>,
    text: &[u8],
) -> Result<(), NoMemory>
    ensures { OnOk result ((last : Option ℕ) →
        LearnsLines (record { last = last; open_ends = open_ends.old.items; ends = ends.old.items }) (lines text.now)
        (record { last = last; open_ends = open_ends.new.items; ends = ends.new.items })) }
{
    let mut start = 0;
    for i in 0..text.len() {
        start = learn_ended(open_ends, ends, text, start, i)?;
    }
    learn_line(open_ends, ends, &text[start..])
}

/// The place of the oldest end of a running task.
fn place_of(ends: &[(u32, u8)], running: &[u32]) -> Option<usize>
    ensures { IsPlace running.now ends.now result }
{
    for i in 0..ends.len() {
        if running.contains(&ends[i].0) {
            return Some(i);
        }
    }
    None
}

/// Takes the oldest end of a running task out.
pub fn give(ends: &mut Vec<(u32, u8)>, running: &[u32]) -> Option<(u32, u8)>
    ensures { GivesOr running.now ends.old.items ends.new.items result }
{
    match place_of(ends.as_slice(), running) {
        Some(place) => Some(ends.remove(place)),
        None => None,
    }
}
