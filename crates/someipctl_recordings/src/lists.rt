//! Lists that texts name: ports, interfaces, VLAN IDs and addresses.
ghost use Rattle.std.specs.Prelude.{◌≡◌, ℕ, IfNone, IfOk, IfSome, Some, None, Err, map, is_none, true};
ghost use Rattle.std.specs.List.{list_any};
ghost use Rattle.someipctl_recordings.specs.Lists.{AreAddresses, HasNoAddress, IsAddress};
ghost use Rattle.someipctl_recordings.specs.WholeLimits.{number_within};
ghost use Rattle.someipctl_show.specs.Words.{comma_words};
ghost use Rattle.someipctl_recordings.specs.declared.lists.ListError.TheVariants.{OutOfMemory};

use someip_texts::plain_u16;
use someipctl_show::comma_words;
use std::alloc::{AllocError, AllocFailed, Global};
use std::net::Ipv4Addr;
use thiserror::Error;

/// Why a text names no list.
#[derive(Clone, Copy, Debug, PartialEq, Eq, Error)]
pub enum ListError {
    /// One of its words is none that is asked for.
    #[error("bad list")]
    BadList,
    /// Memory ran out.
    #[error("out of memory")]
    OutOfMemory,
}

impl From<AllocError> for ListError {
    ghost from_gives = { λ _ e. e ≡ OutOfMemory };

    fn from(_e: AllocError) -> ListError {
        ListError::OutOfMemory
    }
}

impl<T: Drop> From<AllocFailed<T>> for ListError {
    ghost from_gives = { λ _ e. e ≡ OutOfMemory };

    fn from(_e: AllocFailed<T>) -> ListError {
        ListError::OutOfMemory
    }
}

/// The numbers that a text names: decimal numbers from `low` to `high` without leading zeros, with commas
/// between them and nothing else, as in `30490,30509`.
pub fn numbers_in(alloc: Global, text: &str, low: u16, high: u16) -> Result<Vec<u16>, ListError>
    ensures ok { IfOk result (λ numbers.
        map (λ n. Some n) numbers.items ≡ map (number_within low high) (comma_words text.now)) }
    ensures bad { (result ≡ Err ListError.BadList)
        → list_any (λ word. is_none (number_within low high word)) (comma_words text.now) ≡ true }
{
    let words = comma_words(alloc, text)?;
    read_numbers(alloc, words.as_slice(), low, high)
}

/// The numbers that words write.
fn read_numbers(alloc: Global, words: &[&str], low: u16, high: u16) -> Result<Vec<u16>, ListError>
    ensures ok { IfOk result (λ numbers. map (λ n. Some n) numbers.items
        ≡ map (number_within low high) (map (λ w. w.now) words.now)) }
    ensures bad { (result ≡ Err ListError.BadList)
        → list_any (λ word. is_none (number_within low high word)) (map (λ w. w.now) words.now) ≡ true }
{
    let mut numbers = Vec::new(alloc);
    for word in words {
        match number_of(word, low, high) {
            Some(number) => numbers.push(number)?,
            None => return Err(ListError::BadList),
        }
    }
    Ok(numbers)
}

/// The number that a word writes, if it lies between two others or is one of them.
fn number_of(word: &str, low: u16, high: u16) -> Option<u16>
    ensures { result ≡ number_within low high word.now }
{
    let number = plain_u16(word)?;
    if low <= number && number <= high {
        Some(number)
    } else {
        None
    }
}

/// The IPv4 addresses that a text names, with commas between them and nothing else, as in
/// `192.168.0.1,192.168.0.2`. Each is given as a number whose highest byte stands first.
pub fn addresses_in(alloc: Global, text: &str) -> Result<Vec<u32>, ListError>
    ensures ok { IfOk result (λ addresses. AreAddresses (comma_words text.now) addresses.items) }
    ensures bad { (result ≡ Err ListError.BadList) → HasNoAddress (comma_words text.now) }
{
    let words = comma_words(alloc, text)?;
    read_addresses(alloc, words.as_slice())
}

/// The addresses that words write.
fn read_addresses(alloc: Global, words: &[&str]) -> Result<Vec<u32>, ListError>
    ensures ok { IfOk result (λ addresses. AreAddresses (map (λ w. w.now) words.now) addresses.items) }
    ensures bad { (result ≡ Err ListError.BadList) → HasNoAddress (map (λ w. w.now) words.now) }
{
    let mut addresses = Vec::new(alloc);
    for word in words {
        match address_of(word) {
            Some(address) => addresses.push(address)?,
            None => return Err(ListError::BadList),
        }
    }
    Ok(addresses)
}

/// The address that a word writes.
fn address_of(word: &str) -> Option<u32>
    ensures some { IfSome result (IsAddress word.now) }
    ensures none { IfNone result ((n : ℕ) → IsAddress word.now n → ⊥) }
{
    match word.parse::<Ipv4Addr>() {
        Ok(address) => Some(u32::from_be_bytes(address.octets())),
        Err(_) => None,
    }
}
