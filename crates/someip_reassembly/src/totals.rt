//! The total of a message: what a segment tells of it, and what goes past it.
ghost use Rattle.std.specs.Prelude.{◌≡◌, ◌+◌, if◌then◌else◌, None, Some, map, length};
ghost use Rattle.someip_reassembly.specs.SegmentOffers.{placed, passes, differ};

/// The total that a segment tells, which only the last one does.
pub fn total_of(offset: u32, more: bool, bytes: &[u8]) -> Option<usize>
    ensures { result ≡ (if more then None else Some (offset + length bytes.now)) }
{
    if more {
        None
    } else {
        Some(offset as usize + bytes.len())
    }
}

/// The total once a segment was accepted: the one that it tells, or else the one before.
pub fn total_with(known: Option<usize>, offset: u32, more: bool, bytes: &[u8]) -> Option<usize>
    ensures { result ≡ (if more then known else Some (offset + length bytes.now)) }
{
    if more {
        known
    } else {
        total_of(offset, more, bytes)
    }
}

/// Whether a byte of the slice lies at or past the known total.
pub fn passes(total: Option<usize>, offset: u32, bytes: &[u8]) -> bool
    ensures { result ≡ passes total (map (λ e. e.0) (placed offset bytes.now)) }
{
    match total {
        Some(total) => !bytes.is_empty() && total < offset as usize + bytes.len(),
        None => false,
    }
}

/// Whether both totals are known, and differ.
pub fn differ(known: Option<usize>, told: Option<usize>) -> bool
    ensures { result ≡ differ known told }
{
    match (known, told) {
        (Some(known), Some(told)) => known != told,
        _ => false,
    }
}
