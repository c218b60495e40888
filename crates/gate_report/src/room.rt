// The room in which a line is put together, in either form.
ghost use Rattle.std.specs.Prelude.{◌≡◌, true, IfOk, OnErr};
ghost use Rattle.gate_report.specs.Lines.{line_octets, takes_memory};

use crate::json::put_json;
use crate::line::Line;
use crate::text::{LINE, text_line};
use gate_base::OutOfMemory;
use gate_settings::ReportForm;
use std::alloc::Global;
use std::marker::Model;

/// The room in which the lines of a report are put together, one after the other.
#[derive(Drop)]
pub struct LineRoom {
    alloc: Global,
    text: [u8; LINE],
    json: Vec<u8>,
}

impl Model for LineRoom {
    ghost Value = { Unit {0} };

    ghost view = { λ _. tt };
}

impl LineRoom {
    /// A room without a line.
    pub fn new(alloc: Global) -> LineRoom {
        LineRoom {
            alloc,
            text: [0; LINE],
            json: Vec::new(alloc),
        }
    }

    /// Puts a line together in a form, and lends it. The error is that there is too little memory for a form that takes some.
    #[inline(always)]
    pub fn line(&mut self, form: ReportForm, line: &Line) -> Result<&[u8], OutOfMemory>
        ensures line { IfOk result (λ octets. octets.now ≡ line_octets form line.now) }
        ensures memory { OnErr result (takes_memory form ≡ true) }
    {
        match form {
            ReportForm::Text => {
                let begin = text_line(line, &mut self.text);
                let text = &self.text;
                Ok(&text[begin..])
            }
            ReportForm::Json => {
                put_json(self.alloc, line, &mut self.json)?;
                let json = &self.json;
                Ok(json)
            }
        }
    }
}
