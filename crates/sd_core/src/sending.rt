//! When an Offer or a Find goes out next.
//!
//! How many Offers went out is counted up to one more than there are repetitions: more decides nothing.
use crate::phases::Phases;
use someip_tables::Moment;

/// When an Offer or a Find of an instance goes out next, and how many went out.
#[derive(Clone, Copy)]
pub struct Sending {
    /// The moment at which the next goes out, in milliseconds since the node's start.
    pub due: u64,
    /// How many went out. It is counted up to one more than the repetition phase has delays.
    pub sent: u8,
}

impl Sending {
    ghost use Rattle.std.specs.Prelude.{◌≡◌};
    ghost use Rattle.sd_core.specs.Sendings.{first_at, goes_out, after_sending, after_find};

    /// Nothing went out, and the first does after a delay from the start, in milliseconds.
    pub fn first_at(delay: u32) -> Sending
        ensures { result ≡ first_at delay }
    {
        Sending {
            due: u64::from(delay),
            sent: 0,
        }
    }

    /// Whether one goes out now.
    pub fn is_due(&self, now: Moment) -> bool
        ensures { result ≡ goes_out now self.now }
    {
        self.due <= now.as_millis()
    }

    /// The next, once one went out now.
    pub fn after_sending(self, phases: Phases, now: Moment) -> Sending
        ensures { result ≡ after_sending phases now self }
    {
        let due = now.as_millis() + phases.wait(self.sent);
        if self.sent <= phases.repetitions {
            Sending {
                due,
                sent: self.sent + 1,
            }
        } else {
            Sending {
                due,
                sent: self.sent,
            }
        }
    }

    /// What is left to go out of the Finds of an instance, once one that is due now went out. After the
    /// repetition phase there is none.
    pub fn after_find(self, phases: Phases, now: Moment) -> Option<Sending>
        ensures { result ≡ after_find phases now self }
    {
        if !self.is_due(now) {
            Some(self)
        } else if self.sent < phases.repetitions {
            Some(self.after_sending(phases, now))
        } else {
            None
        }
    }
}
