//! A conversation: what the client sends, and what is said to it.
use gs_test_texts::push_bytes;
use std::alloc::{AllocError, Global};

/// A reply of fewer bytes is one write.
const GATHERED_BYTES: usize = 131_072;

/// Where what a client sends at once ends in its input, and where what is said to that ends in the
/// output.
#[derive(Clone, Copy, Drop)]
pub struct Exchange {
    pub sent: usize,
    pub said: usize,
}

/// Which numbers a store has left.
#[derive(Clone, Copy, Drop)]
pub enum Numbers {
    All,
    NoRequest,
    NoCommit,
    /// The nodes from 0 to this one.
    Nodes(u32),
    /// The terms from 0 to this one.
    Terms(u32),
}

/// The numbers that are left by a line that says it.
fn numbers_left(line: &str) -> Option<Numbers> {
    if line == "! no request number is left" {
        return Some(Numbers::NoRequest);
    }
    if line == "! no commit number is left" {
        return Some(Numbers::NoCommit);
    }
    if let Some(last) = line.strip_prefix("! the last node is ") {
        return last.parse().ok().map(Numbers::Nodes);
    }
    let last = line.strip_prefix("! the last term is ")?;
    last.parse().ok().map(Numbers::Terms)
}

/// A conversation under a name, once all its lines were taken.
#[derive(Drop)]
pub struct Case<'a> {
    pub name: &'a str,
    /// Whether a line gave the name.
    is_named: bool,
    /// The first line that says nothing.
    pub bad_line: Option<&'a str>,
    pub numbers: Numbers,
    pub input: Vec<u8>,
    pub output: Vec<u8>,
    /// The exchanges before the last one.
    pub exchanges: Vec<Exchange>,
    /// How many replies are said, with those that say to go on.
    replies: usize,
    /// Something is said in the last exchange.
    is_said: bool,
    /// The last reply closes the connection.
    pub closes: bool,
}

impl<'a> Case<'a> {
    /// A conversation without a line.
    pub fn new(alloc: Global) -> Case<'a> {
        Case {
            name: "a conversation without a name",
            is_named: false,
            bad_line: None,
            numbers: Numbers::All,
            input: Vec::new(alloc),
            output: Vec::new(alloc),
            exchanges: Vec::new(alloc),
            replies: 0,
            is_said: false,
            closes: false,
        }
    }

    /// Where the input and the output end so far.
    pub fn end(&self) -> Exchange {
        Exchange {
            sent: self.input.len(),
            said: self.output.len(),
        }
    }

    /// The client sends this, after the sign `>`; whether it is bytes. It has waited for what was said
    /// before.
    fn send(&mut self, line: &str) -> Result<bool, AllocError> {
        if self.is_said {
            let end = self.end();
            self.exchanges.push(end)?;
            self.is_said = false;
        }
        push_bytes(&mut self.input, line)
    }

    /// The client is said this, after the sign `<`; whether it is bytes.
    fn say(&mut self, line: &str) -> Result<bool, AllocError> {
        self.is_said = true;
        if line.starts_with(" HTTP/1.1 ") {
            self.replies = self.replies.saturating_add(1);
        }
        self.closes = self.closes || line == " Connection: close";
        push_bytes(&mut self.output, line)
    }

    /// Takes the name; whether it is the first.
    fn call(&mut self, name: &'a str) -> bool {
        if self.is_named {
            return false;
        }
        self.is_named = true;
        self.name = name;
        true
    }

    /// Takes which numbers the store has left; whether the line says such a thing.
    fn set(&mut self, line: &str) -> bool {
        let numbers = numbers_left(line);
        self.numbers = numbers.unwrap_or(self.numbers);
        numbers.is_some()
    }

    /// Takes a line that should say something; whether it does, which it can only after the name.
    fn read(&mut self, line: &'a str) -> Result<bool, AllocError> {
        if let Some(name) = line.strip_prefix("= ") {
            return Ok(self.call(name));
        }
        if !self.is_named {
            return Ok(false);
        }
        if let Some(sent) = line.strip_prefix(">") {
            return self.send(sent);
        }
        match line.strip_prefix("<") {
            Some(said) => self.say(said),
            None => Ok(self.set(line)),
        }
    }

    /// The next line of the input, without its line feed.
    pub fn take(&mut self, line: &'a str) -> Result<(), AllocError> {
        if line.starts_with('#') {
            return Ok(());
        }
        let is_good = self.read(line)?;
        if !is_good && self.bad_line.is_none() {
            self.bad_line = Some(line);
        }
        Ok(())
    }

    /// Whether a line was taken that says something, or should.
    pub fn is_begun(&self) -> bool {
        self.is_named || self.bad_line.is_some()
    }

    /// The exchange with this number, or the end where there is none.
    pub fn exchange(&self, number: usize) -> Exchange {
        match self.exchanges.get(number) {
            Some(exchange) => *exchange,
            None => self.end(),
        }
    }

    /// How many exchanges were sent whole with so many bytes of the input.
    pub fn sent_within(&self, count: usize) -> usize {
        let mut exchanges = 0usize;
        for exchange in &self.exchanges {
            if exchange.sent <= count {
                exchanges = exchanges.saturating_add(1);
            }
        }
        exchanges.saturating_add(usize::from(self.input.len() <= count))
    }

    /// How many exchanges were answered whole with so many bytes of the output.
    pub fn said_within(&self, count: usize) -> usize {
        let mut exchanges = 0usize;
        for exchange in &self.exchanges {
            if exchange.said <= count {
                exchanges = exchanges.saturating_add(1);
            }
        }
        exchanges.saturating_add(usize::from(self.output.len() <= count))
    }

    /// The most writes of the output, where each takes all: one a reply, and one for as many bytes as
    /// are gathered.
    pub fn most_writes(&self) -> usize {
        self.replies
            .saturating_add(self.output.len() / GATHERED_BYTES)
    }

    /// How many bytes are said in so many exchanges.
    pub fn said_by(&self, exchanges: usize) -> usize {
        match exchanges.checked_sub(1) {
            Some(number) => self.exchange(number).said,
            None => 0,
        }
    }
}
