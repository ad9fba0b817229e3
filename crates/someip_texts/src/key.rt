//! The keys of what a text says.
ghost use Rattle.std.specs.Prelude.{◌≡◌, ◌||◌, bytes_eq};
ghost use Rattle.std.specs.List.{list_any};
ghost use Rattle.std.specs.Option.{is_some, option_map};
ghost use Rattle.someip_texts.specs.Keys.{lesser_of};

/// Whether a key is one of some.
pub fn is_one_of(key: &str, keys: &[&str]) -> bool
    ensures { result ≡ list_any (λ known. bytes_eq key.now known.now) keys.now }
{
    keys.iter().any(|known| key == *known)
}

/// The lesser of two keys by their bytes, or the one that there is.
pub fn lesser<'a>(a: Option<&'a str>, b: Option<&'a str>) -> Option<&'a str>
    ensures which { option_map (λ key. key.now) result
        ≡ lesser_of (option_map (λ key. key.now) a.entry) (option_map (λ key. key.now) b.entry) }
    ensures whether { is_some result ≡ (is_some a.entry || is_some b.entry) }
{
    match (a, b) {
        (Some(a), Some(b)) => Some(if b < a { b } else { a }),
        (Some(a), None) => Some(a),
        (None, b) => b,
    }
}
