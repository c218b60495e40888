// The files of a command.

/// The files of a run.
#[derive(Clone, Copy)]
pub struct FileNames<'a> {
    pub settings: &'a str,
    pub left_in: &'a str,
    pub right_in: &'a str,
    pub left_out: &'a str,
    pub right_out: &'a str,
    pub report: &'a str,
}

/// The files of an audit: the settings, both incoming captures, what some gateway made of them, and where the answer goes.
#[derive(Clone, Copy)]
pub struct AuditNames<'a> {
    pub settings: &'a str,
    pub left_in: &'a str,
    pub right_in: &'a str,
    pub left_given: &'a str,
    pub right_given: &'a str,
    pub report_given: &'a str,
    pub report: &'a str,
}
