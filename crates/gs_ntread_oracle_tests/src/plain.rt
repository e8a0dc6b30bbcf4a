//! A plain reader of N-Triples: the grammar's productions, one after another, on a whole text. It
//! is slow and stands apart from the reader in pieces, which must say the same.
use gs_chars::{is_iri_char, is_pn_chars, is_pn_chars_u};
use gs_iri::is_absolute;
use std::alloc::{AllocError, Global};

/// A text, and how many of its characters are read.
#[derive(Drop)]
struct Text {
    chars: Vec<char>,
    at: usize,
}

/// What a document says: its lines in the order of its statements, each with its line feed, and the
/// number of bytes before its first fault, if it has one.
#[derive(Drop)]
pub struct Meaning {
    pub lines: String,
    pub fault: Option<u64>,
}

impl Text {
    fn next(&mut self) -> Option<char> {
        let next = self.chars.get(self.at).copied();
        self.at = self.at.saturating_add(1);
        next
    }

    fn take(&mut self, wanted: char) -> bool {
        let is_next = self.chars.get(self.at).copied() == Some(wanted);
        if is_next {
            self.at = self.at.saturating_add(1);
        }
        is_next
    }

    /// Spaces and tabs.
    fn blanks(&mut self) {
        for _ in 0..self.chars.len() {
            if !self.take(' ') && !self.take('\t') {
                return;
            }
        }
    }

    /// [8] EOL, where the end of the text counts as one.
    fn ends_line(&mut self) -> bool {
        self.take('\n') || self.take('\r') || self.at >= self.chars.len()
    }

    /// A comment, if one is next.
    fn comment(&mut self) {
        if !self.take('#') {
            return;
        }
        for _ in 0..self.chars.len() {
            match self.chars.get(self.at).copied() {
                None | Some('\n' | '\r') => return,
                Some(_) => self.at = self.at.saturating_add(1),
            }
        }
    }

    /// So many hexadecimal digits, and the character of their number.
    fn digits(&mut self, count: u32) -> Option<char> {
        let mut value = 0u64;
        for _ in 0..count {
            let digit = self.next()?.to_digit(16)?;
            value = value.saturating_mul(16).saturating_add(u64::from(digit));
        }
        char::from_u32(u32::try_from(value).ok()?)
    }

    /// [10] UCHAR, after its backslash.
    fn uchar(&mut self) -> Option<char> {
        match self.next() {
            Some('u') => self.digits(4),
            Some('U') => self.digits(8),
            _ => None,
        }
    }

    /// [153s] ECHAR or [10] UCHAR, after the backslash.
    fn escape(&mut self) -> Option<char> {
        match self.chars.get(self.at).copied() {
            Some('u' | 'U') => self.uchar(),
            _ => match self.next() {
                Some('t') => Some('\t'),
                Some('b') => Some('\u{8}'),
                Some('n') => Some('\n'),
                Some('r') => Some('\r'),
                Some('f') => Some('\u{C}'),
                Some('"') => Some('"'),
                Some('\'') => Some('\''),
                Some('\\') => Some('\\'),
                _ => None,
            },
        }
    }

    /// [9] IRIREF that is absolute, with its angle brackets.
    fn iri(&mut self, alloc: Global) -> Result<Option<String>, AllocError> {
        if !self.take('<') {
            return Ok(None);
        }
        let mut text = String::new(alloc);
        for _ in 0..self.chars.len() {
            let next = match self.next() {
                Some('>') if is_absolute(text.as_str()) => {
                    let term = format!(in alloc; "<{text}>")?;
                    return Ok(Some(term));
                }
                Some('\\') => self.uchar(),
                next => next,
            };
            match next {
                Some(c) if is_iri_char(c) => text.push(c)?,
                _ => return Ok(None),
            }
        }
        Ok(None)
    }

    /// [142s] BLANK_NODE_LABEL, as `_:b` with the number of the label. Dots at its end are no part
    /// of it.
    fn blank(
        &mut self,
        alloc: Global,
        labels: &mut Vec<String>,
    ) -> Result<Option<String>, AllocError> {
        if !self.take('_') || !self.take(':') {
            return Ok(None);
        }
        let mut label = String::new(alloc);
        for _ in 0..self.chars.len() {
            match self.chars.get(self.at).copied() {
                Some(c) if is_pn_chars(c) || c == ':' => label.push(c)?,
                Some('.') if !label.is_empty() => label.push('.')?,
                _ => break,
            }
            self.at = self.at.saturating_add(1);
        }
        let trimmed = label.trim_end_matches('.');
        let dots = label.len().saturating_sub(trimmed.len());
        self.at = self.at.saturating_sub(dots);
        match trimmed.chars().next() {
            Some(c) if is_pn_chars_u(c) || c == ':' || c.is_ascii_digit() => {}
            _ => return Ok(None),
        }
        let mut number = 0usize;
        for (i, known) in labels.iter().enumerate() {
            if known.as_str() == trimmed {
                number = i.saturating_add(1);
            }
        }
        if number == 0 {
            labels.push(String::from_str(alloc, trimmed)?)?;
            number = labels.len();
        }
        let term = format!(in alloc; "_:b1_{number}")?;
        Ok(Some(term))
    }

    /// [9] STRING_LITERAL_QUOTE, in the canonical form.
    fn string(&mut self, alloc: Global) -> Result<Option<String>, AllocError> {
        if !self.take('"') {
            return Ok(None);
        }
        let mut text = String::from_str(alloc, "\"")?;
        for _ in 0..self.chars.len() {
            let next = match self.next() {
                Some('"') => {
                    text.push('"')?;
                    return Ok(Some(text));
                }
                Some('\n' | '\r') => None,
                Some('\\') => self.escape(),
                next => next,
            };
            match next {
                Some('"') => text.push_str("\\\"")?,
                Some('\\') => text.push_str("\\\\")?,
                Some('\n') => text.push_str("\\n")?,
                Some('\r') => text.push_str("\\r")?,
                Some(c) => text.push(c)?,
                None => return Ok(None),
            }
        }
        Ok(None)
    }

    /// [144s] LANGTAG after its `@`: letters, and after each `-` letters and digits.
    fn tag(&mut self, alloc: Global) -> Result<Option<String>, AllocError> {
        let mut tag = String::new(alloc);
        for _ in 0..self.chars.len() {
            match self.chars.get(self.at).copied() {
                Some(c) if c.is_ascii_alphanumeric() || c == '-' => {
                    tag.push(c.to_ascii_lowercase())?;
                }
                _ => break,
            }
            self.at = self.at.saturating_add(1);
        }
        for (i, part) in tag.split('-').enumerate() {
            let has_digit = part.chars().any(|c| c.is_ascii_digit());
            if part.is_empty() || (i == 0 && has_digit) {
                return Ok(None);
            }
        }
        Ok(Some(tag))
    }

    /// [6] literal.
    fn literal(&mut self, alloc: Global) -> Result<Option<String>, AllocError> {
        let Some(text) = self.string(alloc)? else {
            return Ok(None);
        };
        let end = self.at;
        self.blanks();
        if self.take('@') {
            let Some(tag) = self.tag(alloc)? else {
                return Ok(None);
            };
            let term = format!(in alloc; "{text}@{tag}")?;
            return Ok(Some(term));
        }
        if !self.take('^') {
            self.at = end;
            return Ok(Some(text));
        }
        if !self.take('^') {
            return Ok(None);
        }
        self.blanks();
        let Some(datatype) = self.iri(alloc)? else {
            return Ok(None);
        };
        if datatype.as_str() == "<http://www.w3.org/2001/XMLSchema#string>" {
            return Ok(Some(text));
        }
        let term = format!(in alloc; "{text}^^{datatype}")?;
        Ok(Some(term))
    }

    /// [3] subject, or [5] object but for literals.
    fn node(
        &mut self,
        alloc: Global,
        labels: &mut Vec<String>,
    ) -> Result<Option<String>, AllocError> {
        self.blanks();
        if self.chars.get(self.at).copied() == Some('_') {
            self.blank(alloc, labels)
        } else {
            self.iri(alloc)
        }
    }

    /// [2] triple, as its line.
    fn triple(
        &mut self,
        alloc: Global,
        labels: &mut Vec<String>,
    ) -> Result<Option<String>, AllocError> {
        let Some(subject) = self.node(alloc, labels)? else {
            return Ok(None);
        };
        self.blanks();
        let Some(predicate) = self.iri(alloc)? else {
            return Ok(None);
        };
        self.blanks();
        let object = if self.chars.get(self.at).copied() == Some('"') {
            self.literal(alloc)?
        } else {
            self.node(alloc, labels)?
        };
        let Some(object) = object else {
            return Ok(None);
        };
        self.blanks();
        if !self.take('.') {
            return Ok(None);
        }
        let line = format!(in alloc; "{subject} {predicate} {object} .\n")?;
        Ok(Some(line))
    }

    /// The bytes of the characters that are read.
    fn place(&self) -> u64 {
        let mut bytes = 0u64;
        for c in self.chars.iter().take(self.at) {
            bytes = bytes.saturating_add(c.len_utf8() as u64);
        }
        bytes
    }
}

/// [1] ntriplesDoc, under request 1.
pub fn meaning_of(alloc: Global, document: &str) -> Result<Meaning, AllocError> {
    let mut chars = Vec::new(alloc);
    for c in document.chars() {
        chars.push(c)?;
    }
    let mut text = Text { chars, at: 0 };
    let mut labels = Vec::new(alloc);
    let mut lines = String::new(alloc);
    let mut last = 0u64;
    for _ in 0..text.chars.len() {
        text.blanks();
        text.comment();
        if text.at >= text.chars.len() {
            break;
        }
        if text.ends_line() {
            continue;
        }
        let Some(line) = text.triple(alloc, &mut labels)? else {
            return Ok(Meaning {
                lines,
                fault: Some(last),
            });
        };
        lines.push_str(line.as_str())?;
        last = text.place();
        text.blanks();
        text.comment();
        if !text.ends_line() {
            return Ok(Meaning {
                lines,
                fault: Some(last),
            });
        }
    }
    Ok(Meaning { lines, fault: None })
}
