//! What is asked for.
use someipctl_io::Form;
use someipctl_recordings::Wanted;

/// What is asked for of recordings: which packets are looked at, which lines are told, and in which form.
#[derive(Clone, Copy)]
pub struct ServicesAsked<'a> {
    /// Which packets are looked at, and of which services, addresses and times lines are told.
    pub wanted: Wanted<'a>,
    /// How they are printed.
    pub form: Form,
}
