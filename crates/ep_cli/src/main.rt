//! The program `epsat`: hands the words of its command line to `run`, and ends with the code of the status.
#![tactic(auto)]

ghost use Rattle.std.specs.Prelude.{◌≡◌, ◌≢◌, IfOk, drop, map};
ghost use Rattle.std.specs.IoError.{error_kind};
ghost use Rattle.std.specs.Process.{exit_status};
ghost use Rattle.std.specs.String.{string_bytes};
ghost use Rattle.std.specs.Vec.Iter.{into_iter_items};
ghost use Rattle.std.specs.declared.io.ErrorKind.TheVariants.{OutOfMemory};
ghost use Rattle.ep_files.specs.Status.{exit_code};
ghost use Rattle.ep_files.specs.declared.status.Status.{Status as StatusValue};

use cnf_core::Log;
use ep_base::{Memory, StdFiles, StdSink, Word};
use ep_driver::{Status, run};
use std::alloc::Global;
use std::env;
use std::env::Args;
use std::io::{self, ErrorKind};
use std::process::ExitCode;
use std::rt::Env;

fn main(rt: HostRuntime) -> ExitCode {
    let status = match words_of(&rt) {
        Ok(words) => {
            let mut files = StdFiles::new(&rt);
            let mut out = StdSink::new(&rt);
            let mut log = Log::new(rt.alloc());
            run(&rt, rt.alloc(), &words, &mut files, &mut out, &mut log)
        }
        Err(status) => status,
    };
    ended(status)
}

/// How the program ends with a status.
fn ended(status: Status) -> ExitCode
    ensures { exit_status result ≡ exit_code status }
{
    ExitCode::from(status.code())
}

/// The words after the program's name. Where the system doesn't give them as texts they are no command.
fn words_of<R: Env + AllocGlobal>(rt: &R) -> Result<Vec<Word>, Status> {
    let texts = env::args(rt).map_err(status_of)?;
    words_behind_name(rt.alloc(), texts).map_err(|_| Status::Memory)
}

/// The words behind the first of the system's texts, which is the program's name: all of them, as they are and in their order.
fn words_behind_name(alloc: Global, texts: Args) -> Result<Vec<Word>, Memory>
    ensures { IfOk result (λ words. words.items ≡ drop 1 (map string_bytes (into_iter_items texts))) }
{
    words_of_texts(alloc, without_first(texts))
}

/// The texts behind the first.
fn without_first(texts: Args) -> Args
    ensures { into_iter_items result ≡ drop 1 (into_iter_items texts) }
{
    let mut rest = texts;
    let _first = rest.next();
    rest
}

/// The words of texts.
fn words_of_texts(alloc: Global, texts: Args) -> Result<Vec<Word>, Memory>
    ensures { IfOk result (λ words. words.items ≡ map string_bytes (into_iter_items texts)) }
{
    let mut words = Vec::new(alloc);
    for text in texts {
        words.push(Word::new(alloc, text.as_str())?)?;
    }
    Ok(words)
}

/// How the program ends where the system doesn't give its words.
fn status_of(error: io::Error) -> Status
    ensures wanting { error_kind error ≡ OutOfMemory → result ≡ StatusValue.Memory }
    ensures no_command { error_kind error ≢ OutOfMemory → result ≡ StatusValue.Usage }
{
    match error.kind() {
        ErrorKind::OutOfMemory => Status::Memory,
        _ => Status::Usage,
    }
}
