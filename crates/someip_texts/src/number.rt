//! Decimal numbers without leading zeros.
ghost use Rattle.std.specs.Prelude.{◌≡◌, ◌^◌};
ghost use Rattle.std.specs.List.{list_all};
ghost use Rattle.someip_texts.specs.Numbers.{begins_plain, is_digit, is_plain, number_in};

/// The number of 64 bits that a word writes, in decimal digits without leading zeros.
pub fn plain_u64(word: &str) -> Option<u64>
    ensures { result ≡ number_in (2 ^ 64) word.now }
{
    if is_plain(word.as_bytes()) {
        word.parse::<u64>().ok()
    } else {
        None
    }
}

/// The number of 16 bits that a word writes so.
pub fn plain_u16(word: &str) -> Option<u16>
    ensures { result ≡ number_in (2 ^ 16) word.now }
{
    if is_plain(word.as_bytes()) {
        word.parse::<u16>().ok()
    } else {
        None
    }
}

/// The number of eight bits that a word writes so.
pub fn plain_u8(word: &str) -> Option<u8>
    ensures { result ≡ number_in (2 ^ 8) word.now }
{
    if is_plain(word.as_bytes()) {
        word.parse::<u8>().ok()
    } else {
        None
    }
}

/// Whether a word is digits without leading zeros.
fn is_plain(word: &[u8]) -> bool
    ensures { result ≡ is_plain word.now }
{
    begins_plain(word) && are_digits(word)
}

/// Whether something stands first, and it is no zero that others follow.
fn begins_plain(word: &[u8]) -> bool
    ensures { result ≡ begins_plain word.now }
{
    match word {
        [] => false,
        [_] => true,
        [first, ..] => *first != b'0',
    }
}

fn are_digits(word: &[u8]) -> bool
    ensures { result ≡ list_all is_digit word.now }
{
    word.iter().all(|b| b'0' <= *b && *b <= b'9')
}
