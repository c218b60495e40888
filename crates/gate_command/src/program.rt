// The program over real files.
ghost use Rattle.std.specs.String.{string_bytes};
ghost use Rattle.run_setup.specs.Prelude.{command_of};
ghost use Rattle.std.specs.Prelude.{map};
ghost use Rattle.gate_command.specs.Exit.{IsExit, IsCode, Finishes, IsFinished};

use crate::call::realm_gate;
use file_desk::FileDesk;
use gate_desk::Desk;
use run_setup::{Status, write_error_line};
use std::alloc::{AllocError, Global};
use std::env;
use std::io::ErrorKind;
use std::random::RandomSource;
use std::rt::Runtime;

// The words behind the program's name. Where one of them isn't text there are none, which is no command.
fn words(rt: &HostRuntime) -> Result<Vec<String>, AllocError> {
    let mut words = Vec::new(rt.alloc());
    let arguments = match env::args(rt) {
        Ok(arguments) => arguments,
        Err(error) if error.kind() == ErrorKind::InvalidData => return Ok(words),
        Err(_) => return Err(AllocError),
    };
    for word in arguments.skip(1) {
        words.push(word)?;
    }
    Ok(words)
}

/// Carries out the command of these words over a desk, and answers the exit status.
fn exit_status<D: Desk>(alloc: Global, words: &[String], desk: &mut D) -> u8
    ensures { IsExit result (command_of (map string_bytes words.now))
        (D.outside desk.old) (D.outside desk.new) }
{
    realm_gate(alloc, words, desk).code()
}

/// Hands all that was written to the system, and answers the exit status. Where the system refuses octets that had been
/// taken, that is a failed write of their slot, which a line on standard error names, whatever the status was before.
fn finish<R: Runtime>(desk: &mut FileDesk<R>, code: u8) -> u8
    ensures { Finishes code result desk.old desk.new }
{
    match desk.finish() {
        Ok(()) => code,
        Err(slot) => write_error_line(desk, Status::WriteFault(slot)).code(),
    }
}

/// Carries out the command of these words over real files, and answers the exit status.
pub fn carry_out<R: Runtime>(alloc: Global, words: &[String], desk: &mut FileDesk<R>) -> u8
    ensures exit { IsFinished result (command_of (map string_bytes words.now))
        desk.old desk.new }
    ensures code { IsCode result }
{
    let code = exit_status(alloc, words, desk);
    finish(desk, code)
}

// A number that nobody else knows, or 0 where the system gives none.
fn drawn_seed(rt: &HostRuntime) -> u64 {
    let mut octets = [0; 8];
    match rt.fill_bytes(&mut octets) {
        Ok(()) => u64::from_le_bytes(octets),
        Err(_) => 0,
    }
}

/// Carries out the command of the program's words over real files, and answers the exit status.
pub fn run(rt: HostRuntime) -> u8
    ensures { IsCode result }
{
    let Ok(words) = words(&rt) else {
        return Status::OutOfMemory.code();
    };
    let alloc = rt.alloc();
    let seed = drawn_seed(&rt);
    let mut desk = FileDesk::new(rt, seed);
    carry_out(alloc, &words, &mut desk)
}
