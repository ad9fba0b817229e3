//! What the definitions behind the contracts of schedules promise. Each law is the contract of a
//! function that does nothing.
ghost use Rattle.std.specs.Prelude.{◌≡◌, ◌<◌, ◌^◌, [], ◌∷◌, ℕ, List, Some};
ghost use Rattle.std.specs.List.{AllByRecursion};
ghost use Rattle.std.specs.Net.Text.{socket_v4_text};
ghost use Rattle.std.specs.declared.net.socket_addr.SocketAddrV4.{SocketAddrV4};
ghost use Rattle.someip_world_schedule.specs.StepWords.{endpoint_in, endpoint_of};
ghost use Rattle.someip_world_schedule.specs.Steps.{IsUnparted, joined_by_blanks, words_in};

/// The words of a line are those that single spaces join to it, and no others.
pub fn what_words_are()
    ensures spelled { (line : List ℕ) → joined_by_blanks (words_in line) ≡ line }
    ensures unparted { (line : List ℕ) → AllByRecursion IsUnparted (words_in line) }
    ensures only { (word : List ℕ) (others : List (List ℕ))
        → AllByRecursion IsUnparted (word ∷ others)
        → words_in (joined_by_blanks (word ∷ others)) ≡ word ∷ others }
{}

/// An endpoint is read only of the text that it is printed as, and of each.
pub fn what_endpoints_say()
    ensures only { (word : List ℕ) (endpoint : SocketAddrV4)
        → endpoint_in word ≡ Some endpoint → word ≡ socket_v4_text endpoint }
    ensures each { (a b c d port : ℕ) → a < 2 ^ 8 → b < 2 ^ 8 → c < 2 ^ 8 → d < 2 ^ 8
        → port < 2 ^ 16 → let endpoint = endpoint_of (a ∷ b ∷ c ∷ d ∷ []) port in
        endpoint_in (socket_v4_text endpoint) ≡ Some endpoint }
{}
