//! Which packets of recordings are looked at.
ghost use Rattle.std.specs.Prelude.{◌≡◌, ◌==◌, option_map};
ghost use Rattle.std.specs.List.{list_any};
ghost use Rattle.recording.specs.View.{view_record};
ghost use Rattle.recording_packets.specs.Chosen.{all_packets, has_vlan, is_among, is_chosen, is_of_interface};
ghost use Rattle.recording_packets.specs.View.{view_chosen};

use recording::Record;

/// Which packets of recordings are looked at.
#[derive(Clone, Copy)]
pub struct ChosenPackets<'a> {
    /// Only packets of interfaces with these numbers. None chooses all.
    pub interfaces: Option<&'a [u16]>,
    /// Only packets with one of these VLAN IDs, in their outer tag or in their inner one. None chooses all.
    pub vlans: Option<&'a [u16]>,
    /// The nanoseconds after a packet within which an equal one is its copy, and gives nothing.
    /// None leaves copies in.
    pub window_ns: Option<u64>,
}

impl<'a> ChosenPackets<'a> {
    /// All packets are looked at, and copies are left in.
    pub fn all() -> ChosenPackets<'a>
        ensures { view_chosen result ≡ all_packets }
    {
        ChosenPackets {
            interfaces: None,
            vlans: None,
            window_ns: None,
        }
    }

    /// Whether a packet is looked at.
    pub fn chooses(&self, found: &Record<'_>) -> bool
        ensures { result ≡ is_chosen (view_chosen self.now) (view_record found.now) }
    {
        is_of_interface(self.interfaces, found) && has_vlan(self.vlans, found)
    }
}

fn is_of_interface(interfaces: Option<&[u16]>, found: &Record<'_>) -> bool
    ensures { result ≡ is_of_interface (option_map (λ n. n.now) interfaces.entry) (view_record found.now) }
{
    match interfaces {
        Some(interfaces) => is_one_of(interfaces, found.interface),
        None => true,
    }
}

/// Whether an interface has one of these numbers.
fn is_one_of(interfaces: &[u16], interface: usize) -> bool
    ensures { result ≡ list_any (λ n. n == interface) interfaces.now }
{
    interfaces.iter().any(|n| usize::from(*n) == interface)
}

fn has_vlan(vlans: Option<&[u16]>, found: &Record<'_>) -> bool
    ensures { result ≡ has_vlan (option_map (λ v. v.now) vlans.entry) (view_record found.now) }
{
    match vlans {
        Some(vlans) => {
            is_among(vlans, found.outer_vlan()) || is_among(vlans, found.inner_vlan())
        }
        None => true,
    }
}

/// Whether there is a VLAN ID, and it is one of these.
fn is_among(vlans: &[u16], vlan: Option<u16>) -> bool
    ensures { result ≡ is_among vlans.now vlan }
{
    match vlan {
        Some(vlan) => vlans.contains(&vlan),
        None => false,
    }
}
