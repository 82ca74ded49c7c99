// The program: the top call over the files of the system and the standard output.
#![tactic(auto)]

use chk_base::file_desk::FileDesk;
use chk_base::out_sink::OutSink;
use chk_base::text::{Text, Words};
use oschk_cmd::command::oschk;
use oschk_cmd::status::Status;
use std::alloc::{AllocError, Global};
use std::process::ExitCode;
use std::rt::Env;
use std::{env, io};

// Why there are no words.
#[derive(Debug, Drop)]
enum NoWords {
    Memory,
    NotText,
}

impl From<AllocError> for NoWords {
    fn from(_error: AllocError) -> NoWords {
        NoWords::Memory
    }
}

impl From<io::Error> for NoWords {
    fn from(error: io::Error) -> NoWords {
        if error.kind() == io::ErrorKind::OutOfMemory {
            NoWords::Memory
        } else {
            NoWords::NotText
        }
    }
}

// The command line without the program's name.
fn words<R: Env + AllocGlobal>(rt: &R) -> Result<Words, NoWords> {
    let alloc = rt.alloc();
    let mut words = Words::new(alloc);
    for word in env::args(rt)?.skip(1) {
        words.push(Text::from_bytes(alloc, word.as_bytes())?)?;
    }
    Ok(words)
}

fn main(rt: HostRuntime) -> ExitCode {
    let alloc = rt.alloc();
    let status = match words(&rt) {
        Ok(words) => {
            let mut desk = FileDesk::new(alloc, rt);
            let mut out = OutSink::new(rt);
            oschk(alloc, &words, &mut desk, &mut out)
        }
        Err(NoWords::Memory) => Status::Memory,
        Err(NoWords::NotText) => Status::Usage,
    };
    ExitCode::from(status.number())
}
