// The lines of a table.
use crate::case::Case;
use crate::printing;
use crate::texts::Texts;
use chk_base::text::{Text, Words};
use std::alloc::{AllocError, Global};

// Why a line isn't done: it is none of the table's, or there was no memory.
#[derive(Debug, Drop)]
pub enum Wrong {
    Line,
    Memory,
}

impl From<AllocError> for Wrong {
    fn from(_error: AllocError) -> Wrong {
        Wrong::Memory
    }
}

#[derive(Drop)]
pub struct Table {
    alloc: Global,
    texts: Texts,
    case: Case,
}

fn number(word: &str) -> Result<u64, Wrong> {
    word.parse::<u64>().map_err(|_| Wrong::Line)
}

fn small_number(word: &str) -> Result<u32, Wrong> {
    word.parse::<u32>().map_err(|_| Wrong::Line)
}

// The first word of a line, and what follows it.
fn cut(line: &str) -> (&str, &str) {
    line.split_once(' ').unwrap_or((line, ""))
}

// The words of a line, with one blank between each and the next.
fn words_of(alloc: Global, line: &str) -> Result<Words, AllocError> {
    let mut words = Words::new(alloc);
    if line.is_empty() {
        return Ok(words);
    }
    for word in line.split(' ') {
        words.push(Text::from_bytes(alloc, word.as_bytes())?)?;
    }
    Ok(words)
}

// The words of a text, each on a line of its own.
fn words_in(alloc: Global, text: &Text) -> Result<Words, AllocError> {
    let mut words = Words::new(alloc);
    for line in text.as_bytes().split_inclusive(|byte| *byte == b'\n') {
        let word = line.strip_suffix(b"\n").unwrap_or(line);
        words.push(Text::from_bytes(alloc, word)?)?;
    }
    Ok(words)
}

impl Table {
    pub fn new(alloc: Global) -> Table {
        Table {
            alloc,
            texts: Texts::new(alloc),
            case: Case::new(alloc),
        }
    }

    // Does what a line says.
    pub fn line(&mut self, line: &str, out: &mut Text) -> Result<(), Wrong> {
        if line.is_empty() || line.starts_with('#') {
            return Ok(());
        }
        if let Some(rest) = line.strip_prefix('|') {
            self.texts.append(rest.as_bytes())?;
            return self.texts.append(b"\n");
        }
        if let Some(rest) = line.strip_prefix('+') {
            return self.texts.append(rest.as_bytes());
        }
        let (word, rest) = cut(line);
        match word {
            "text" | "copies" | "byte" | "bytes" | "first" | "after" | "without" | "last" => {
                self.text_line(word, rest)
            }
            "case" => {
                self.case = Case::new(self.alloc);
                Ok(printing::title(rest, out)?)
            }
            "file" | "desk" | "output" | "room" | "most" => self.case_line(word, rest),
            "oschk" | "last_line" | "words" | "desk_faults" | "output_faults" => self.call_line(
                word, rest, out,
            ),
            _ => self.file_line(word, rest, out),
        }
    }

    // A line that makes a text.
    fn text_line(&mut self, word: &str, rest: &str) -> Result<(), Wrong> {
        if word == "text" {
            return Ok(self.texts.begin(rest, Text::new(self.alloc))?);
        }
        let (count, name) = cut(rest);
        match word {
            "copies" => self.texts.append_copies(small_number(count)?, name),
            "byte" => {
                let byte = u8::try_from(number(count)?).map_err(|_| Wrong::Line)?;
                self.texts.append(&[byte])
            }
            _ => self.texts.append_part(word, number(count)?, name),
        }
    }

    // A line that says what a case stands on.
    fn case_line(&mut self, word: &str, rest: &str) -> Result<(), Wrong> {
        match word {
            "file" => {
                let (name, text) = cut(rest);
                self.case.put(name, self.texts.find(text)?)?;
            }
            "desk" => self.case.desk_fails_at(number(rest)?)?,
            "output" => self.case.output_fails_at(number(rest)?),
            "room" => self.case.set_room(small_number(rest)?),
            _ => self.case.take_at_most(small_number(rest)?),
        }
        Ok(())
    }

    // A line that calls the program.
    fn call_line(&mut self, word: &str, rest: &str, out: &mut Text) -> Result<(), Wrong> {
        let (name, line) = cut(rest);
        match word {
            "oschk" => self.case.call(&words_of(self.alloc, rest)?, true, out)?,
            "last_line" => self.case.call(&words_of(self.alloc, rest)?, false, out)?,
            "words" => {
                let words = words_in(self.alloc, self.texts.find(rest)?)?;
                self.case.call(&words, true, out)?;
            }
            _ => {
                let words = words_of(self.alloc, line)?;
                self.case
                    .fail_each(&words, name, word == "desk_faults", out)?;
            }
        }
        Ok(())
    }

    // A line that asks for a file of the case.
    fn file_line(&mut self, word: &str, rest: &str, out: &mut Text) -> Result<(), Wrong> {
        let (name, other) = cut(rest);
        let Some(file) = self.case.file(name)? else {
            return Ok(printing::about(name.as_bytes(), " isn't there", out)?);
        };
        match word {
            "length" => printing::length(self.alloc, name, file.as_bytes().len(), out)?,
            "show" => printing::lines(file.as_bytes(), out)?,
            "keep" => self.texts.begin(other, file.copy(self.alloc)?)?,
            "prefix" => {
                let whole = self.texts.find(other)?;
                let is_prefix = whole.as_bytes().starts_with(file.as_bytes());
                let what = if is_prefix {
                    " is a prefix"
                } else {
                    " is no prefix"
                };
                printing::about(name.as_bytes(), what, out)?;
            }
            _ => return Err(Wrong::Line),
        }
        Ok(())
    }
}
