// A text of scripts, cut into scripts and lines as it is read: nothing is kept for a line, so that a text of many short
// lines takes no more memory than its bytes.
ghost use Rattle.std.specs.Prelude.{ℕ, ◌<◌, ◌≤◌, length};
ghost use Rattle.std.specs.Iterator.{at_most};

#[derive(Clone, Copy)]
pub struct Line<'a> {
    // from 1
    pub number: usize,
    // with its line break, which is a blank; the last line may lack one
    pub text: &'a [u8],
}

impl Line<'_> {
    // Whether it is blank or a comment.
    pub fn is_passed_over(&self) -> bool {
        self.text.starts_with(b"#") || self.text.trim_ascii_start().is_empty()
    }
}

// Whether the first line of a text is `new` between blanks, and so begins a table. Most lines are told apart by their first
// letter, so that no line is cut for it.
fn begins_table(text: &[u8]) -> bool {
    let letter = text
        .iter()
        .find(|b| !matches!(**b, b' ' | b'\t' | b'\r' | b'\x0c'));
    if !matches!(letter, Some(b'n')) {
        return false;
    }
    let first = text.split_inclusive(|b| *b == b'\n').next();
    first.is_some_and(is_new)
}

fn is_new(line: &[u8]) -> bool {
    let line = line.trim_ascii_start();
    line.starts_with(b"new") && matches!(line.trim_ascii_end(), b"new")
}

// How many bytes there are before the next line that begins a table, the first line not being asked.
fn script_length(text: &[u8]) -> usize
    ensures within { result ≤ length text.now }
    ensures some { 0 < length text.now → 0 < result }
{
    for (i, byte) in text.iter().enumerate() {
        if *byte == b'\n' && begins_table(&text[i + 1..]) {
            return i + 1;
        }
    }
    text.len()
}

// From a line `new` up to the next one. What stands before the first has no table.
#[derive(Clone, Copy)]
pub struct Script<'a> {
    pub text: &'a [u8],
    // the number of its first line
    pub first_line: usize,
}

impl<'a> Script<'a> {
    pub fn begins_table(&self) -> bool {
        begins_table(self.text)
    }
}

#[derive(Drop)]
pub struct Scripts<'a> {
    rest: &'a [u8],
    // the number of the next line
    line: usize,
}

impl<'a> Scripts<'a> {
    pub fn new(text: &'a [u8]) -> Scripts<'a> {
        Scripts {
            rest: text,
            line: 1,
        }
    }
}

impl<'a> Iterator for Scripts<'a> {
    type Item = Script<'a>;

    ghost remaining = { λ s. at_most (length s.rest.now) };

    fn next(&mut self) -> Option<Script<'a>> {
        if self.rest.is_empty() {
            return None;
        }
        let (text, rest) = self.rest.split_at(script_length(self.rest));
        let first_line = self.line;
        let breaks = text.iter().filter(|b| **b == b'\n').count();
        self.rest = rest;
        self.line = first_line.saturating_add(breaks);
        Some(Script { text, first_line })
    }
}
