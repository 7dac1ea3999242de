//! Shows a person what a PostgreSQL server or client sent, a line a message, as it comes.
#![tactic(auto)]

use pgp_base::Memory;
use pgtrace_lines::pipe::Pipe;
use pgtrace_session::files::Recordings;
use pgtrace_session::run::run_own;
use std::cell::Cell;
use std::fs::File;
use std::io::{self, ErrorKind, IsTerminal, Read};
use std::process::ExitCode;

/// Standard input, and the files of the machine.
#[derive(Drop)]
struct Recorded<'a, R> {
    reader: &'a mut R,
    rt: &'a HostRuntime,
}

impl<R: Read> Read for Recorded<'_, R> {
    fn read(&mut self, buf: &mut [u8]) -> io::Result<usize> {
        self.reader.read(buf)
    }
}

/// A file that says its name where it can't be read.
#[derive(Drop)]
struct Named<'a> {
    file: File,
    name: String,
    rt: &'a HostRuntime,
}

impl Read for Named<'_> {
    fn read(&mut self, buf: &mut [u8]) -> io::Result<usize> {
        match self.file.read(buf) {
            Err(e) if e.kind() != ErrorKind::Interrupted => {
                complain(self.rt, self.name.as_str());
                Err(e)
            }
            read => read,
        }
    }
}

/// Of what a file holds nothing is said.
impl<'a, R: Read> Recordings for Recorded<'a, R> {
    type File = Named<'a>;

    ghost Gives = { λ _ _. Unit {0} };

    fn open(&self, name: &str) -> io::Result<Named<'a>> {
        let rt = self.rt;
        let file = match File::open(rt, name) {
            Ok(file) => file,
            Err(e) => {
                complain(rt, name);
                return Err(e);
            }
        };
        match rt.alloc().text_of(name) {
            Ok(name) => Ok(Named { file, name, rt }),
            Err(_) => Err(io::Error::from(ErrorKind::OutOfMemory)),
        }
    }
}

/// Says that a file can't be read. Where this can't be written, the run still ends with its own complaint.
fn complain(rt: &HostRuntime, name: &str) {
    let _ = eprintln!(rt; "pgtrace: {name}: cannot be read");
}

fn main(rt: HostRuntime) -> ExitCode {
    let pipe = Pipe {
        is_closed: Cell::new(false),
    };
    ExitCode::from(run_own(
        rt.alloc(),
        rt.stdout().is_terminal(),
        &rt,
        &mut Recorded {
            reader: &mut pipe.source(&mut rt.reader()),
            rt: &rt,
        },
        &mut pipe.sink(&mut io::writer(&rt)),
        // who went away isn't told why the listing ends
        &mut pipe.sink(&mut rt.stderr()),
    ))
}
