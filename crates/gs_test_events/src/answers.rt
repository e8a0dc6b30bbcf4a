//! Answers in the words of worked schedules.
use gs_event::Answer;
use std::alloc::{AllocError, Global};

/// An answer in the words of a schedule.
pub fn words(alloc: Global, answer: Answer) -> Result<String, AllocError> {
    match answer {
        Answer::Opened(number) => format!(in alloc; "opened {number}\n"),
        Answer::Staged => format!(in alloc; "staged\n"),
        Answer::Status(412, _, last_write) => format!(in alloc; "412 {last_write}\n"),
        Answer::Status(status, None, _) => format!(in alloc; "{status}\n"),
        Answer::Status(status, Some(name), _) => {
            let text = str::from_utf8(name.as_bytes()).unwrap_or("no text");
            format!(in alloc; "{status} {text}\n")
        }
        Answer::Pinned(status, _) => format!(in alloc; "{status}\n"),
        Answer::Lines(lines, end) => {
            let bytes = lines.into_bytes();
            let text = str::from_utf8(bytes.as_slice()).unwrap_or("no text");
            let last = if end { "end" } else { "more" };
            format!(in alloc; "{text}{last}\n")
        }
        Answer::Cancelled => format!(in alloc; "cancelled\n"),
        Answer::Reclaimed(freed, left) => {
            let rest = if left { "more" } else { "done" };
            format!(in alloc; "reclaimed {freed} {rest}\n")
        }
        Answer::Refused(refusal) => {
            let name = refusal.name();
            format!(in alloc; "refused {name}\n")
        }
    }
}

/// What the events print, in all, where the counts are left out.
pub fn answered(alloc: Global, printed: &str) -> Result<String, AllocError> {
    let mut text = String::new(alloc);
    for line in printed.lines() {
        if !line.starts_with("nodes ") {
            text.push_str(line)?;
            text.push('\n')?;
        }
    }
    Ok(text)
}

/// What answers print.
pub fn printed(alloc: Global, answers: Vec<Answer>) -> Result<String, AllocError> {
    let mut text = String::new(alloc);
    for answer in answers {
        text.push_str(words(alloc, answer)?.as_str())?;
    }
    Ok(text)
}
