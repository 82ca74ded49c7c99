// A case: files and an output in memory, and the calls of the program over them.
use crate::printing;
use chk_base::mem_desk::MemDesk;
use chk_base::mem_sink::MemSink;
use chk_base::text::{Text, Words};
use oschk_cmd::command::oschk;
use oschk_cmd::status::Status;
use std::alloc::{AllocError, Global};

const ROOM: u32 = 1_048_576;

// How many calls are let fail one after the other.
const MOST_CALLS: u64 = 1000;

// A file that a case puts on its desk.
#[derive(Drop)]
struct File {
    name: Text,
    bytes: Text,
}

// How an output is made: its room, the write that fails, and the most bytes that a write takes. 0 is no such write, and no bound.
#[derive(Clone, Copy)]
pub struct Output {
    pub room: u32,
    pub fails_at: u64,
    pub most: u32,
}

#[derive(Drop)]
pub struct Case {
    alloc: Global,
    files: Vec<File>,
    desk: MemDesk,
    output: Output,
}

// What a call of the program answers, and what it writes.
#[derive(Drop)]
struct Answer {
    status: Status,
    text: Text,
}

// How a text stands after a call, beside what it was before and what a call without a fault makes of it.
#[derive(Clone, Copy, PartialEq, Eq)]
enum Left {
    AsBefore,
    Whole,
    Part,
    Other,
}

impl Left {
    fn of(now: &[u8], before: &[u8], whole: &[u8]) -> Left {
        if now == before {
            Left::AsBefore
        } else if now == whole {
            Left::Whole
        } else if whole.starts_with(now) {
            Left::Part
        } else {
            Left::Other
        }
    }

    fn text(self) -> &'static str {
        match self {
            Left::AsBefore => " is as before",
            Left::Whole => " is whole",
            Left::Part => " is a part",
            Left::Other => " is something else",
        }
    }
}

// The bytes of a file, none where it isn't there.
fn bytes_of<'a>(desk: &'a MemDesk, name: &Text) -> &'a [u8] {
    match desk.file(name) {
        Some(file) => file.as_bytes(),
        None => &[],
    }
}

fn sink_of(alloc: Global, output: &Output) -> Result<MemSink, AllocError> {
    let mut sink = MemSink::new(alloc, output.room)?;
    if output.fails_at != 0 {
        sink.fail_at(output.fails_at)?;
    }
    if output.most != 0 {
        sink.take_at_most(output.most);
    }
    Ok(sink)
}

// The program's answer to words.
fn answer_to(
    alloc: Global,
    words: &Words,
    desk: &mut MemDesk,
    output: &Output,
) -> Result<Answer, AllocError> {
    let mut sink = sink_of(alloc, output)?;
    let status = oschk(alloc, words, desk, &mut sink);
    let text = sink.text().copy(alloc)?;
    Ok(Answer { status, text })
}

// The call of the desk and the write of the output that fail, 0 for none.
#[derive(Clone, Copy)]
struct Failing {
    desk: u64,
    output: u64,
}

// An answer, and the file that is looked at.
#[derive(Drop)]
struct Beside {
    answer: Answer,
    file: Text,
}

fn print(
    alloc: Global,
    answer: &Answer,
    left: (Status, Left, Left),
    name: &Text,
    out: &mut Text,
) -> Result<(), AllocError> {
    printing::status(alloc, answer.status, out)?;
    match left.1 {
        Left::AsBefore => {}
        Left::Other => printing::lines(answer.text.as_bytes(), out)?,
        _ => printing::about(b"output", left.1.text(), out)?,
    }
    printing::about(name.as_bytes(), left.2.text(), out)
}

impl Case {
    pub fn new(alloc: Global) -> Case {
        Case {
            alloc,
            files: Vec::new(alloc),
            desk: MemDesk::new(alloc),
            output: Output {
                room: ROOM,
                fails_at: 0,
                most: 0,
            },
        }
    }

    pub fn put(&mut self, name: &str, bytes: &Text) -> Result<(), AllocError> {
        let name = Text::from_bytes(self.alloc, name.as_bytes())?;
        let bytes = bytes.copy(self.alloc)?;
        self.desk.put(&name, &bytes)?;
        self.files.push(File { name, bytes })?;
        Ok(())
    }

    // Lets this call of the desk fail.
    pub fn desk_fails_at(&mut self, call: u64) -> Result<(), AllocError> {
        self.desk.fail_at(call)
    }

    // Lets this write of each output fail.
    pub fn output_fails_at(&mut self, call: u64) {
        self.output.fails_at = call;
    }

    pub fn set_room(&mut self, room: u32) {
        self.output.room = room;
    }

    // Lets each append and write take at most so many bytes.
    pub fn take_at_most(&mut self, most: u32) {
        self.output.most = most;
        if most != 0 {
            self.desk.take_at_most(most);
        }
    }

    pub fn file(&self, name: &str) -> Result<Option<&Text>, AllocError> {
        let name = Text::from_bytes(self.alloc, name.as_bytes())?;
        Ok(self.desk.file(&name))
    }

    // Calls the program, and prints what it answers, or of that the status and the last line alone, and which of the files are no longer as they
    // were put.
    pub fn call(
        &mut self,
        words: &Words,
        is_whole: bool,
        out: &mut Text,
    ) -> Result<(), AllocError> {
        let answer = answer_to(self.alloc, words, &mut self.desk, &self.output)?;
        printing::status(self.alloc, answer.status, out)?;
        if is_whole {
            printing::lines(answer.text.as_bytes(), out)?;
        } else {
            printing::last_line(answer.text.as_bytes(), out)?;
        }
        for file in &self.files {
            if bytes_of(&self.desk, &file.name) != file.bytes.as_bytes() {
                printing::about(file.name.as_bytes(), " is written", out)?;
            }
        }
        Ok(())
    }

    // A desk with the files as they were put, whose call of this number fails.
    fn fresh(&self, fails_at: u64) -> Result<MemDesk, AllocError> {
        let mut desk = MemDesk::new(self.alloc);
        for file in &self.files {
            desk.put(&file.name, &file.bytes)?;
        }
        desk.fail_at(fails_at)?;
        if self.output.most != 0 {
            desk.take_at_most(self.output.most);
        }
        Ok(desk)
    }

    // The answer to words where this call of the desk, or this write of the output, fails, and how the file of this name then stands; 0 fails none.
    fn beside(&self, words: &Words, name: &Text, at: Failing) -> Result<Beside, AllocError> {
        let mut desk = self.fresh(at.desk)?;
        let output = Output {
            fails_at: at.output,
            ..self.output
        };
        let answer = answer_to(self.alloc, words, &mut desk, &output)?;
        let file = Text::from_bytes(self.alloc, bytes_of(&desk, name))?;
        Ok(Beside { answer, file })
    }

    // Lets each call of the desk, or else each write of the output, fail in turn until none is left to fail, and prints each way in which that
    // ends after another one: the status, what is written where that isn't empty, or how it stands, and how the file stands.
    pub fn fail_each(
        &self,
        words: &Words,
        name: &str,
        is_desk: bool,
        out: &mut Text,
    ) -> Result<(), AllocError> {
        let name = Text::from_bytes(self.alloc, name.as_bytes())?;
        let before = Text::from_bytes(self.alloc, bytes_of(&self.desk, &name))?;
        let whole = self.beside(words, &name, Failing { desk: 0, output: 0 })?;
        let mut last = None;
        for call in 1..=MOST_CALLS {
            let at = if is_desk {
                Failing {
                    desk: call,
                    output: 0,
                }
            } else {
                Failing {
                    desk: 0,
                    output: call,
                }
            };
            let beside = self.beside(words, &name, at)?;
            let left = (
                beside.answer.status,
                Left::of(
                    beside.answer.text.as_bytes(),
                    &[],
                    whole.answer.text.as_bytes(),
                ),
                Left::of(
                    beside.file.as_bytes(),
                    before.as_bytes(),
                    whole.file.as_bytes(),
                ),
            );
            if last != Some(left) {
                print(self.alloc, &beside.answer, left, &name, out)?;
            }
            if beside.answer.status == whole.answer.status {
                return Ok(());
            }
            last = Some(left);
        }
        Ok(())
    }
}
