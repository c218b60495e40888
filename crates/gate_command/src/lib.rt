//! The gateway as one call over a desk, which carries out the command that the words behind the program's name are, and the program over
//! real files: `run SETTINGS LEFT_IN RIGHT_IN LEFT_OUT RIGHT_OUT REPORT`, `make NUMBER COUNT REPORT`, or
//! `audit SETTINGS LEFT_IN RIGHT_IN LEFT_GIVEN RIGHT_GIVEN REPORT_GIVEN REPORT`.
#![tactic(auto)]

mod call;
mod program;

pub use call::realm_gate;
pub use program::{carry_out, run};
