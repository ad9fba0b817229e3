//! What of recordings is left out, counted.
ghost use Rattle.std.specs.Prelude.{◌≡◌, ◌<◌, ◌==◌};
ghost use Rattle.recording_packets.specs.LeftOut.{counted, nothing_left_out, total};

use recording::Skipped;
use std::fmt;

/// How many packets of recordings give no datagram, by kind. Printed, it names the kinds that came,
/// in this order, as in `left out 3 not UDP, 2 cut short, 1 fragments without the rest`.
#[derive(Clone, Copy, PartialEq, Eq)]
pub struct LeftOut {
    /// Packets of a link type that is not read.
    pub link_type: usize,
    /// Packets that are no IPv4.
    pub not_ipv4: usize,
    /// Packets of IPv4 whose protocol is not UDP.
    pub not_udp: usize,
    /// Packets that the recorder cut.
    pub cut: usize,
    /// Packets with a UDP Length that cannot be.
    pub bad_udp_length: usize,
    /// Packets that were recorded twice.
    pub copies: usize,
    /// Fragments of which the rest of the packet did not come.
    pub fragments_without_rest: usize,
    /// Fragments of packets of which two fragments differ.
    pub fragments_that_differ: usize,
}

impl LeftOut {
    /// None of any kind.
    pub fn new() -> LeftOut
        ensures { result ≡ nothing_left_out }
    {
        LeftOut {
            link_type: 0,
            not_ipv4: 0,
            not_udp: 0,
            cut: 0,
            bad_udp_length: 0,
            copies: 0,
            fragments_without_rest: 0,
            fragments_that_differ: 0,
        }
    }

    /// Counts one more of a kind.
    pub(crate) fn add(&mut self, kind: Skipped)
        requires { total self.old < usize.MAX }
        ensures { self.new ≡ counted kind self.old }
    {
        match kind {
            Skipped::LinkType => self.link_type += 1,
            Skipped::NotIpv4 => self.not_ipv4 += 1,
            Skipped::NotUdp => self.not_udp += 1,
            Skipped::Cut => self.cut += 1,
            Skipped::BadUdpLength => self.bad_udp_length += 1,
        }
    }

    /// Whether there is none of any kind.
    pub fn is_empty(&self) -> bool
        ensures { result ≡ (total self.now == 0) }
    {
        self.link_type == 0
            && self.not_ipv4 == 0
            && self.not_udp == 0
            && self.cut == 0
            && self.bad_udp_length == 0
            && self.copies == 0
            && self.fragments_without_rest == 0
            && self.fragments_that_differ == 0
    }
}

impl fmt::Display for LeftOut {
    fn fmt<W: fmt::Write>(&self, f: &mut fmt::Formatter<W>) -> Result<(), fmt::Error> {
        f.write_str("left out")?;
        let between = write_kind(f, " ", self.link_type, "of another link type")?;
        let between = write_kind(f, between, self.not_ipv4, "not IPv4")?;
        let between = write_kind(f, between, self.not_udp, "not UDP")?;
        let between = write_kind(f, between, self.cut, "cut short")?;
        let between = write_kind(f, between, self.bad_udp_length, "with a bad UDP length")?;
        let between = write_kind(f, between, self.copies, "copies")?;
        let rest = self.fragments_without_rest;
        let between = write_kind(f, between, rest, "fragments without the rest")?;
        write_kind(
            f,
            between,
            self.fragments_that_differ,
            "fragments that differ",
        )?;
        Ok(())
    }
}

/// Writes a kind after what stands between it and the one before, if it came. Gives what stands before
/// the next one.
fn write_kind<W: fmt::Write>(
    f: &mut fmt::Formatter<W>,
    between: &'static str,
    count: usize,
    words: &str,
) -> Result<&'static str, fmt::Error> {
    if count == 0 {
        return Ok(between);
    }
    write!(f, "{between}{count} {words}")?;
    Ok(", ")
}
