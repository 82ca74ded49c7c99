// The named texts of a table.
use crate::table::Wrong;
use chk_base::text::Text;
use std::alloc::{AllocError, Global};

#[derive(Drop)]
struct Named {
    name: Text,
    text: Text,
}

// Texts by their names, in the order in which they were named. A name means the last text of that name.
#[derive(Drop)]
pub struct Texts {
    alloc: Global,
    items: Vec<Named>,
}

// The number of bytes of the first so many lines of a text.
fn bytes_of_lines(text: &[u8], lines: u64) -> usize {
    let mut left = lines;
    for (at, byte) in text.iter().enumerate() {
        if left == 0 {
            return at;
        }
        if *byte == b'\n' {
            left -= 1;
        }
    }
    text.len()
}

fn lines_of(text: &[u8]) -> u64 {
    text.iter().filter(|byte| **byte == b'\n').count() as u64
}

// A text cut behind its first so many lines.
fn cut(text: &[u8], lines: u64) -> (&[u8], &[u8]) {
    text.split_at(bytes_of_lines(text, lines).min(text.len()))
}

// A part of a text: its first bytes or lines, what follows its first lines, all but its last lines, or its last lines.
fn part<'a>(how: &str, count: u64, text: &'a [u8]) -> Option<&'a [u8]> {
    let from_the_end = lines_of(text).saturating_sub(count);
    match how {
        "bytes" => {
            let count = usize::try_from(count).ok()?;
            Some(&text[..count.min(text.len())])
        }
        "first" => Some(cut(text, count).0),
        "after" => Some(cut(text, count).1),
        "without" => Some(cut(text, from_the_end).0),
        "last" => Some(cut(text, from_the_end).1),
        _ => None,
    }
}

impl Texts {
    pub fn new(alloc: Global) -> Texts {
        Texts {
            alloc,
            items: Vec::new(alloc),
        }
    }

    // Names a text, which later lines may make longer.
    pub fn begin(&mut self, name: &str, text: Text) -> Result<(), AllocError> {
        let name = Text::from_bytes(self.alloc, name.as_bytes())?;
        self.items.push(Named { name, text })?;
        Ok(())
    }

    pub fn find(&self, name: &str) -> Result<&Text, Wrong> {
        for item in self.items.iter().rev() {
            if item.name.as_bytes() == name.as_bytes() {
                return Ok(&item.text);
            }
        }
        Err(Wrong::Line)
    }

    // Puts bytes at the end of the text that was named last.
    pub fn append(&mut self, bytes: &[u8]) -> Result<(), Wrong> {
        match self.items.last_mut() {
            Some(item) => Ok(item.text.append(bytes)?),
            None => Err(Wrong::Line),
        }
    }

    // Puts so many copies of a text at the end.
    pub fn append_copies(&mut self, count: u32, name: &str) -> Result<(), Wrong> {
        let text = self.find(name)?.copy(self.alloc)?;
        for _ in 0..count {
            self.append(text.as_bytes())?;
        }
        Ok(())
    }

    // Puts a part of a text at the end.
    pub fn append_part(&mut self, how: &str, count: u64, name: &str) -> Result<(), Wrong> {
        let text = self.find(name)?.copy(self.alloc)?;
        match part(how, count, text.as_bytes()) {
            Some(piece) => self.append(piece),
            None => Err(Wrong::Line),
        }
    }
}
