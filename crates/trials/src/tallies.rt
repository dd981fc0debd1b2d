// How many questions and texts became what.
use super::runs::{Disagreement, End, Trial};
use super::texts::Outcome;

// Of questions: complete runs, and the records of these; refusals; questions too wide for nested loops; runs with less
// room that were complete, stopped at a tuple, at a box; disagreements.
#[derive(Clone, Copy, Default)]
pub(crate) struct Questions {
    complete: usize,
    records: usize,
    refused: usize,
    wide: usize,
    enough: usize,
    at_tuple: usize,
    at_box: usize,
    pub wrong: usize,
}

// Of texts: complete and stopped runs; texts that the reader refused, and those whose question is refused; wide ones;
// disagreements.
#[derive(Clone, Copy, Default)]
pub(crate) struct Texts {
    complete: usize,
    stopped: usize,
    bad_text: usize,
    bad_question: usize,
    wide: usize,
    pub wrong: usize,
}

fn add(count: &mut usize, more: usize) {
    *count = count.saturating_add(more);
}

impl Questions {
    pub(crate) fn note(&mut self, tried: &Result<Trial, Disagreement>) {
        match tried {
            Err(Disagreement) => add(&mut self.wrong, 1),
            Ok(Trial::Refused) => add(&mut self.refused, 1),
            Ok(Trial::Wide) => add(&mut self.wide, 1),
            Ok(Trial::Complete { boxes, less }) => {
                add(&mut self.complete, 1);
                add(&mut self.records, *boxes);
                match less {
                    End::Complete => add(&mut self.enough, 1),
                    End::AtTuple => add(&mut self.at_tuple, 1),
                    End::AtBox => add(&mut self.at_box, 1),
                }
            }
        }
    }

    pub(crate) fn print(&self, rt: &impl Print) {
        let _ = println!(rt;
            "questions: {} complete, {} refused, {} too wide for nested loops; {} records looked at",
            self.complete, self.refused, self.wide, self.records
        );
        let _ = println!(rt;
            "with less room: {} complete, {} stopped at a tuple, {} at a box",
            self.enough, self.at_tuple, self.at_box
        );
    }
}

impl Texts {
    pub(crate) fn note(&mut self, tried: &Result<Outcome, Disagreement>) {
        let count = match tried {
            Err(Disagreement) => &mut self.wrong,
            Ok(Outcome::BadText) => &mut self.bad_text,
            Ok(Outcome::BadQuestion) => &mut self.bad_question,
            Ok(Outcome::Wide) => &mut self.wide,
            Ok(Outcome::Complete) => &mut self.complete,
            Ok(Outcome::Stopped) => &mut self.stopped,
        };
        add(count, 1);
    }

    pub(crate) fn print(&self, rt: &impl Print) {
        let _ = println!(rt;
            "texts: {} complete, {} stopped, {} refused as texts, {} refused as questions, {} too wide for nested loops",
            self.complete, self.stopped, self.bad_text, self.bad_question, self.wide
        );
    }
}
