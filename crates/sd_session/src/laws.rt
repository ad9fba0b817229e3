//! Laws of the definitions behind the contracts. Each is the contract of a function that does nothing.
ghost use Rattle.std.specs.Prelude.{◌≡◌, ◌+◌, ◌%◌, nat_lt, ℕ, true, false};
ghost use Rattle.sd_session.specs.Sessions.{after_uses, is_reboot};

/// The sessions that a counter gives: after n uses the next one is n modulo 65535, counted from 1,
/// with the Reboot flag for the first 65535 uses.
pub fn sessions_of_a_counter()
    ensures every { (n : ℕ) → after_uses n
        ≡ record { session = n % 65535 + 1; reboot = nat_lt n 65535 } }
    // The 65535th, the 65536th and the 131071st use.
    ensures last { after_uses 65534 ≡ record { session = 0xffff; reboot = true } }
    ensures wrapped { after_uses 65535 ≡ record { session = 1; reboot = false } }
    ensures again { after_uses 131070 ≡ record { session = 1; reboot = false } }
{}

/// Which messages show a reboot, by example: each row has the earlier message and the later one.
pub fn reboots_by_example()
    ensures repeated { is_reboot (record { session = 5; reboot = true })
        (record { session = 5; reboot = true }) ≡ true }
    ensures rising { is_reboot (record { session = 5; reboot = true })
        (record { session = 6; reboot = true }) ≡ false }
    ensures wrapped { is_reboot (record { session = 0xffff; reboot = true })
        (record { session = 1; reboot = false }) ≡ false }
    ensures flag_set { is_reboot (record { session = 9; reboot = false })
        (record { session = 1; reboot = true }) ≡ true }
    ensures late { is_reboot (record { session = 9; reboot = false })
        (record { session = 3; reboot = false }) ≡ false }
{}
