// The words of a command.
ghost use Rattle.std.specs.Prelude.{◌≡◌, ◌≤◌, IfSome, map};
ghost use Rattle.std.specs.String.{string_bytes};
ghost use Rattle.run_setup.specs.AuditNames.{names_of as audit_names_of};
ghost use Rattle.run_setup.specs.RunNames.{names_of};
ghost use Rattle.run_setup.specs.Command.{asked, command_of, command_by, run_in, run_of, make_in, make_of, audit_in, audit_of, is_no_number, number_in, number_behind, is_file_word, is_report_word, is_run, is_make, is_audit, HasFewRounds};

use crate::names::{AuditNames, FileNames};
use gate_base::read_number;

/// The greatest number of a workload.
pub const GREATEST_NUMBER: u32 = 4_294_967_295;

/// The most rounds of a workload.
pub const MOST_ROUNDS: u32 = 100_000;

/// What the words of a command ask for.
#[derive(Clone, Copy)]
pub enum Command<'a> {
    /// A run over files.
    Run(FileNames<'a>),
    /// A run over the workload of a number with so many rounds, whose last line goes to the report.
    Make {
        number: u32,
        count: u32,
        report: &'a str,
    },
    /// An audit of given files.
    Audit(AuditNames<'a>),
    /// The words are no command.
    Usage,
}

// A word that isn't empty and doesn't begin with a hyphen.
fn is_file_word(word: &str) -> bool
    ensures { result ≡ is_file_word word.now }
{
    match word.as_bytes() {
        [] => false,
        [first, ..] => *first != b'-',
    }
}

#[tactic(auto, unfolding(crate::specs::Command::is_report_word))]
fn is_report_word(word: &str) -> bool
    ensures { result ≡ is_report_word word.now }
{
    word == "-" || is_file_word(word)
}

#[tactic(auto, unfolding(crate::specs::Command::is_run))]
fn is_run(word: &str) -> bool
    ensures { result ≡ is_run word.now }
{
    word == "run"
}

#[tactic(auto, unfolding(crate::specs::Command::is_make))]
fn is_make(word: &str) -> bool
    ensures { result ≡ is_make word.now }
{
    word == "make"
}

#[tactic(auto, unfolding(crate::specs::Command::is_audit))]
fn is_audit(word: &str) -> bool
    ensures { result ≡ is_audit word.now }
{
    word == "audit"
}

// No digit, or a zero before other digits.
fn is_no_number(digits: &[u8]) -> bool
    ensures { result ≡ is_no_number digits.now }
{
    digits.is_empty() || (digits.len() > 1 && digits[0] == b'0')
}

/// The decimal number up to a limit that a word writes without a leading zero.
fn number_in(limit: u32, word: &str) -> Option<u32>
    requires { limit ≤ GREATEST_NUMBER }
    ensures number { result ≡ number_in limit word.now }
    ensures limit { IfSome result (λ n. n ≤ limit) }
{
    let digits = word.as_bytes();
    if is_no_number(digits) {
        None
    } else {
        number_behind(limit, 0, digits)
    }
}

/// The number that these digits write behind those of another, where none on the way is above the limit.
fn number_behind(limit: u32, number: u32, digits: &[u8]) -> Option<u32>
    requires number { number ≤ limit }
    requires limit { limit ≤ GREATEST_NUMBER }
    ensures number { result ≡ number_behind limit number digits.now }
    ensures limit { IfSome result (λ n. n ≤ limit) }
{
    let Some((first, others)) = digits.split_first() else {
        return Some(number);
    };
    let digit = read_number(&[*first])?;
    let longer = 10 * u64::from(number) + u64::from(digit);
    if longer > u64::from(limit) {
        return None;
    }
    number_behind(limit, longer as u32, others)
}

/// What the words of a run ask for: `SETTINGS LEFT_IN RIGHT_IN LEFT_OUT RIGHT_OUT REPORT`.
fn run_of(names: FileNames<'_>) -> Command<'_>
    ensures asked { asked result ≡ run_of (names_of names.entry) }
    ensures rounds { HasFewRounds result }
{
    if is_file_word(names.settings)
        && is_file_word(names.left_in)
        && is_file_word(names.right_in)
        && is_file_word(names.left_out)
        && is_file_word(names.right_out)
        && is_report_word(names.report)
    {
        Command::Run(names)
    } else {
        Command::Usage
    }
}

/// What the words of a make ask for: `NUMBER COUNT REPORT`.
fn make_of<'a>(number: &str, count: &str, report: &'a str) -> Command<'a>
    ensures asked { asked result ≡ make_of number.now count.now report.now }
    ensures rounds { HasFewRounds result }
{
    match (
        number_in(GREATEST_NUMBER, number),
        number_in(MOST_ROUNDS, count),
    ) {
        (Some(number), Some(count)) if count > 0 && is_report_word(report) => Command::Make {
            number,
            count,
            report,
        },
        _ => Command::Usage,
    }
}

/// What the words of an audit ask for: `SETTINGS LEFT_IN RIGHT_IN LEFT_GIVEN RIGHT_GIVEN REPORT_GIVEN REPORT`.
fn audit_of(names: AuditNames<'_>) -> Command<'_>
    ensures asked { asked result ≡ audit_of (audit_names_of names.entry) }
    ensures rounds { HasFewRounds result }
{
    if is_file_word(names.settings)
        && is_file_word(names.left_in)
        && is_file_word(names.right_in)
        && is_file_word(names.left_given)
        && is_file_word(names.right_given)
        && is_file_word(names.report_given)
        && is_report_word(names.report)
    {
        Command::Audit(names)
    } else {
        Command::Usage
    }
}

/// What these words behind `run` ask for.
fn run_in(operands: &[String]) -> Command<'_>
    ensures asked { asked result ≡ run_in (map string_bytes operands.now) }
    ensures rounds { HasFewRounds result }
{
    match operands {
        [settings, left_in, right_in, left_out, right_out, report] => run_of(FileNames {
            settings: settings.as_str(),
            left_in: left_in.as_str(),
            right_in: right_in.as_str(),
            left_out: left_out.as_str(),
            right_out: right_out.as_str(),
            report: report.as_str(),
        }),
        _ => Command::Usage,
    }
}

/// What these words behind `make` ask for.
fn make_in(operands: &[String]) -> Command<'_>
    ensures asked { asked result ≡ make_in (map string_bytes operands.now) }
    ensures rounds { HasFewRounds result }
{
    match operands {
        [number, count, report] => make_of(number.as_str(), count.as_str(), report.as_str()),
        _ => Command::Usage,
    }
}

/// What these words behind `audit` ask for.
fn audit_in(operands: &[String]) -> Command<'_>
    ensures asked { asked result ≡ audit_in (map string_bytes operands.now) }
    ensures rounds { HasFewRounds result }
{
    match operands {
        [
            settings,
            left_in,
            right_in,
            left_given,
            right_given,
            report_given,
            report,
        ] => audit_of(AuditNames {
            settings: settings.as_str(),
            left_in: left_in.as_str(),
            right_in: right_in.as_str(),
            left_given: left_given.as_str(),
            right_given: right_given.as_str(),
            report_given: report_given.as_str(),
            report: report.as_str(),
        }),
        _ => Command::Usage,
    }
}

/// What these words behind a verb ask for.
fn command_by<'a>(verb: &str, operands: &'a [String]) -> Command<'a>
    ensures asked { asked result
        ≡ command_by verb.now (map string_bytes operands.now) }
    ensures rounds { HasFewRounds result }
{
    if is_run(verb) {
        run_in(operands)
    } else if is_make(verb) {
        make_in(operands)
    } else if is_audit(verb) {
        audit_in(operands)
    } else {
        Command::Usage
    }
}

/// What the words ask for.
pub fn read_words(words: &[String]) -> Command<'_>
    ensures asked { asked result ≡ command_of (map string_bytes words.now) }
    ensures rounds { HasFewRounds result }
{
    match words.split_first() {
        Some((verb, operands)) => command_by(verb.as_str(), operands),
        None => Command::Usage,
    }
}
