//! Lines on which `op_tables` is tested. `read FILE EDITS` reads the tables of the file with these edits, and `text
//! TEXT` reads the text; in both `\n` ends a line. They print `read`, or the fault and its place. What they have to print comes
//! from the profile of the tables, not from the program.
//!
//! Edits of a text of tables, each behind a `; `: `[HEADER] KEY = VALUE` puts this value at the key that stands behind the
//! header first, `[HEADER] KEY` takes the key out, `+ LINES` adds lines at the end, and `* COUNT LINES` adds them so many
//! times, with the number in the place of each `%`. The keys before all headers stand behind `[]`.
use crate::fault::Fault;
use crate::host::Host;
use op_tables::read_placed;
use std::alloc::{AllocError, Global};
use std::fmt::Write as _;

/// Adds lines, which end where the text has `\n`.
fn put_lines(out: &mut String, text: &str) -> Result<(), AllocError> {
    for line in text.split("\\n") {
        out.push_str(line)?;
        out.push_str("\n")?;
    }
    Ok(())
}

/// Adds lines, with a number in the place of each `%`.
fn put_numbered(
    alloc: Global,
    out: &mut String,
    text: &str,
    number: u32,
) -> Result<(), AllocError> {
    let mut lines = String::new(alloc);
    for (place, part) in text.split('%').enumerate() {
        if place > 0 {
            write!(lines, "{number}")?;
        }
        lines.push_str(part)?;
    }
    put_lines(out, lines.as_str())
}

/// The text with lines added so many times.
fn repeated(alloc: Global, text: &str, more: &str) -> Result<Option<String>, AllocError> {
    let Some((count, lines)) = more.split_once(' ') else {
        return Ok(None);
    };
    let mut out = String::from_str(alloc, text)?;
    for number in 0..count.parse::<u32>().unwrap_or(0) {
        put_numbered(alloc, &mut out, lines, number)?;
    }
    Ok(Some(out))
}

/// The text with a line in the place of that of its key behind a header; `None` where there is no such key.
fn replaced(
    alloc: Global,
    text: &str,
    header: &str,
    line: &str,
) -> Result<Option<String>, AllocError> {
    let (key, has_value) = match line.split_once(" = ") {
        Some((key, _)) => (key, true),
        None => (line, false),
    };
    let mut out = String::new(alloc);
    let mut is_behind = header == "[]";
    let mut is_done = false;
    for old in text.lines() {
        if old.starts_with("[") {
            is_behind = old == header;
        }
        let is_here = is_behind
            && !is_done
            && old.split_once(" = ").is_some_and(|(name, _)| name == key);
        is_done = is_done || is_here;
        if !is_here || has_value {
            out.push_str(if is_here { line } else { old })?;
            out.push_str("\n")?;
        }
    }
    Ok(is_done.then_some(out))
}

/// The text after one edit; `None` where it is none.
fn edited_once(alloc: Global, text: &str, edit: &str) -> Result<Option<String>, AllocError> {
    if let Some(lines) = edit.strip_prefix("+ ") {
        let mut out = String::from_str(alloc, text)?;
        put_lines(&mut out, lines)?;
        return Ok(Some(out));
    }
    if let Some(more) = edit.strip_prefix("* ") {
        return repeated(alloc, text, more);
    }
    match edit.split_once("] ") {
        Some((name, line)) => {
            let mut header = String::from_str(alloc, name)?;
            header.push_str("]")?;
            replaced(alloc, text, header.as_str(), line)
        }
        None => Ok(None),
    }
}

/// The text after all edits; `None` where one is none.
fn edited(alloc: Global, text: &str, edits: &str) -> Result<Option<String>, AllocError> {
    let mut now = String::from_str(alloc, text)?;
    for edit in edits.split("; ").skip(1) {
        match edited_once(alloc, now.as_str(), edit)? {
            Some(next) => now = next,
            None => return Ok(None),
        }
    }
    Ok(Some(now))
}

/// The text of the file that the words name first, with the edits behind it.
fn edited_file(rt: &impl Host, words: &str) -> Result<String, Fault> {
    let (file, _) = words.split_once(';').unwrap_or((words, ""));
    let text = rt.text_of(file)?;
    edited(rt.alloc(), text.as_str(), words)?.ok_or(Fault::NoValue)
}

/// The text that a line has read.
fn text_of(rt: &impl Host, line: &str) -> Result<String, Fault> {
    if let Some(words) = line.strip_prefix("read ") {
        return edited_file(rt, words);
    }
    let mut text = String::new(rt.alloc());
    put_lines(&mut text, line.strip_prefix("text ").unwrap_or(""))?;
    Ok(text)
}

/// Adds what comes of reading the text of a line.
pub fn put_read(rt: &impl Host, line: &str, out: &mut String) -> Result<(), Fault> {
    let text = text_of(rt, line)?;
    match read_placed(rt.alloc(), text.as_str()) {
        Ok(_) => out.push_str("read")?,
        Err(fault) => write!(out, "{fault}")?,
    }
    Ok(())
}
