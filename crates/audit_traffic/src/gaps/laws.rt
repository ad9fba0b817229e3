//! Laws of the definitions behind the contracts. Each is the contract of a function that does nothing:
//! it says what sessions that are missing show, whatever code keeps the book.
ghost use Rattle.std.specs.Prelude.{◌≡◌};
ghost use Rattle.audit_traffic.specs.gaps.GapRules.{session_after, session_before};

/// Which session is so many after another, and which before, by example: FFFF is followed by 1.
pub fn sessions_follow_each_other()
    ensures none { session_after 5 0 ≡ 5 }
    ensures two { session_after 5 2 ≡ 7 }
    ensures wraps { session_after 0xfffe 2 ≡ 1 }
    ensures before { session_before 7 ≡ 6 }
    ensures before_first { session_before 1 ≡ 0xffff }
{}
