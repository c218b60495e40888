// The whole call.
ghost use Rattle.std.specs.Prelude.{◌≤◌, map};
ghost use Rattle.std.specs.String.{string_bytes};
ghost use Rattle.run_setup.specs.declared.command.TheConstants.{MOST_ROUNDS};
ghost use Rattle.run_setup.specs.RunNames.{names_of};
ghost use Rattle.run_setup.specs.Prelude.{command_of};
ghost use Rattle.run_setup.specs.AuditNames.{names_of as audit_names_of};
ghost use Rattle.gate_command.specs.Answers.{Answers, AnswersRun, AnswersMake, AnswersAudit};

use gate_desk::Desk;
use gateway::{make, run};
use gateway_audit::audit;
use run_setup::{AuditNames, Command, FileNames, Status, read_words, write_error_line};
use std::alloc::Global;

/// A run, and the line about what went wrong.
fn told_run<D: Desk>(alloc: Global, desk: &mut D, names: FileNames<'_>) -> Status
    ensures { AnswersRun result (names_of names.entry) (D.outside desk.old)
        (D.outside desk.new) }
{
    match run(alloc, desk, names) {
        Ok(_) => Status::Done,
        Err(status) => write_error_line(desk, status),
    }
}

/// A make, and the line about what went wrong.
fn told_make<D: Desk>(alloc: Global, desk: &mut D, number: u32, count: u32, report: &str) -> Status
    requires { count ≤ MOST_ROUNDS }
    ensures { AnswersMake result number count report.now (D.outside desk.old)
        (D.outside desk.new) }
{
    match make(alloc, desk, number, count, report) {
        Status::Done => Status::Done,
        status => write_error_line(desk, status),
    }
}

/// An audit, and the line about what went wrong where it gives no verdict.
fn told_audit<D: Desk>(alloc: Global, desk: &mut D, names: AuditNames<'_>) -> Status
    ensures { AnswersAudit result (audit_names_of names.entry) (D.outside desk.old)
        (D.outside desk.new) }
{
    match audit(alloc, desk, names) {
        Status::Done => Status::Done,
        Status::Unlawful(number, reason) => Status::Unlawful(number, reason),
        status => write_error_line(desk, status),
    }
}

/// Carries out the command of these words, which stand behind the program's name:
///
/// - `run SETTINGS LEFT_IN RIGHT_IN LEFT_OUT RIGHT_OUT REPORT`
/// - `make NUMBER COUNT REPORT`, a run over the workload of two numbers of which the last line of the report is written alone
/// - `audit SETTINGS LEFT_IN RIGHT_IN LEFT_GIVEN RIGHT_GIVEN REPORT_GIVEN REPORT`, which writes one line: for how many events the
///   given captures and report are lawful, or the first event for which they aren't, and why
///
/// Where the answer is neither `Done` nor `Unlawful`, one line on the slot of errors says why.
///
/// This is promised of the events of both captures whose frames and lines a run writes. Each frame is forwarded at its own event
/// unless exactly its named refusal holds. In each FTP session the octets sent to a host are a prefix of the peer's stream with
/// its address lines renamed by the session's one pair of bindings. In each session of DNS over TCP they are a prefix with each
/// whole message renamed by the session's lists. Acknowledgements cover only octets whose images were acknowledged. Every other
/// forwarded frame is its renaming.
pub fn realm_gate<D: Desk>(alloc: Global, words: &[String], desk: &mut D) -> Status
    ensures { Answers result (command_of (map string_bytes words.now))
        (D.outside desk.old) (D.outside desk.new) }
{
    match read_words(words) {
        Command::Run(names) => told_run(alloc, desk, names),
        Command::Make {
            number,
            count,
            report,
        } => told_make(alloc, desk, number, count, report),
        Command::Audit(names) => told_audit(alloc, desk, names),
        Command::Usage => write_error_line(desk, Status::Usage),
    }
}
