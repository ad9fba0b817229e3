//! What is kept of a payload.
ghost use Rattle.std.specs.Prelude.{◌≡◌};
ghost use Rattle.audit_traffic.specs.calls.Excerpts.{excerpt_of};

/// What is kept of a payload, to tell it from another one: its length, and its first 64 bytes with
/// zeros after a shorter one.
#[derive(Clone, Copy, PartialEq, Eq)]
pub(crate) struct Excerpt {
    size: usize,
    first: [u8; 64],
}

impl Excerpt {
    /// What is kept of this payload.
    pub(crate) fn of(payload: &[u8]) -> Excerpt
        ensures { result ≡ excerpt_of payload.now }
    {
        let mut first = [0; 64];
        let few = payload.len().min(64);
        first[..few].copy_from_slice(&payload[..few]);
        Excerpt {
            size: payload.len(),
            first,
        }
    }
}
