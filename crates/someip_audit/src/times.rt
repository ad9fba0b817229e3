//! How long answers may take, and how often events come.
ghost use Rattle.std.specs.Prelude.{◌≡◌, IfOk};
ghost use Rattle.someip_audit.specs.AnswerTimes.{answer_ms_of, cycle_ms_of};

use audit_rules::Rules;
use std::alloc::{AllocError, Global};
use std::marker::Model;

/// How long answers to REQUESTs may take: as the rules of a bench say, and else so many milliseconds.
#[derive(Drop)]
pub(crate) struct AnswerTimes {
    rules: Rules,
    answer_ms: u32,
}

impl Model for AnswerTimes {
    ghost use Rattle.someip_audit.specs.AnswerTimes.{Times, coded_times};

    ghost Value = { Times };

    ghost coded = { coded_times };

    ghost view = { λ t. record { rules = t.rules; answer_ms = t.answer_ms } };
}

impl AnswerTimes {
    /// As these rules say, and else so many milliseconds.
    pub(crate) fn of(
        alloc: Global,
        rules: &Rules,
        answer_ms: u32,
    ) -> Result<AnswerTimes, AllocError>
        ensures { IfOk result (λ times. times ≡ record { rules = rules.now; answer_ms = answer_ms }) }
    {
        Ok(AnswerTimes {
            rules: rules.copy(alloc)?,
            answer_ms,
        })
    }

    /// How many milliseconds after such an event the next one is to come, if the rules say so.
    pub(crate) fn cycle_ms(&self, service: u16, event: u16) -> Option<u32>
        ensures { result ≡ cycle_ms_of self.now service event }
    {
        self.rules.cycle_ms(service, event)
    }

    /// How many milliseconds an answer to a REQUEST of this service and method may take.
    pub(crate) fn answer_ms(&self, service: u16, method: u16) -> u32
        ensures { result ≡ answer_ms_of self.now service method }
    {
        match self.rules.answer_ms(service, method) {
            Some(millis) => millis,
            None => self.answer_ms,
        }
    }
}
