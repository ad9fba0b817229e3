//! Session IDs in cyclic order (SOME/IP Protocol, "Session ID").
ghost use Rattle.std.specs.Prelude.{◌≡◌};
ghost use Rattle.someip_tables.specs.Sessions.{next_session, session_after_last};

/// The session after a session: FFFF is followed by 1, and 0 is never given.
pub fn next_session(session: u16) -> u16
    ensures { result ≡ next_session session }
{
    if session == 0xffff { 1 } else { session + 1 }
}

/// The session after the last one, if there was one: the first session is 1.
pub fn session_after_last(last: Option<u16>) -> u16
    ensures { result ≡ session_after_last last }
{
    match last {
        None => 1,
        Some(last) => next_session(last),
    }
}
