//! Laws of the definitions behind the contracts. Each is the contract of a function that does nothing:
//! it says which events of a recording fall silent, whatever code keeps the book.
ghost use Rattle.std.specs.Prelude.{◌≡◌, ◌↔◌, ◌≤◌, ℕ, List, [], ◌∷◌, true, false, None, Some};
ghost use Rattle.std.specs.FinMap as finite;
ghost use Rattle.std.specs.List.{All};
ghost use Rattle.audit_traffic.specs.declared.cycles.finding.Finding.TheVariants.{Full};
ghost use Rattle.audit_traffic.specs.declared.cycles.finding.SilentEvent.{SilentEvent};
ghost use Rattle.audit_traffic.specs.declared.cycles.watch.Watch.{Watch};
ghost use Rattle.audit_traffic.specs.declared.events.flow.EventFlow.{EventFlow};
ghost use Rattle.someip_tables.specs.declared.hashed.origin.Numbers.{Numbers};
ghost use Rattle.audit_traffic.specs.cycles.CycleHistories.{Step, book_of, watched_in, without_silent};
ghost use Rattle.audit_traffic.specs.cycles.CycleReasons.{IsWatched};
ghost use Rattle.audit_traffic.specs.cycles.CycleTables.{Cycles, FallsSilent, Tells, after_event, after_silent, told_by};
ghost use Rattle.audit_traffic.specs.cycles.CycleReasons.{IsToldSilent};
ghost use Rattle.audit_traffic.specs.cycles.CycleExamples.{another_comes, asked, awaited, begins_again, comes, unsubscribed, withdrawn};

/// Until when event 8001 to node 1 is awaited, by example: it comes from node 9 with a cycle of 100
/// milliseconds. The newest step is first.
pub fn events_are_awaited()
    ensures once { awaited (comes 1000 1 ∷ []) ≡ Some 1300 }
    ensures again { awaited (comes 1299 1 ∷ comes 1000 1 ∷ []) ≡ Some 1599 }
    // At its deadline it is silent where the book is asked, and is awaited again once it comes.
    ensures in_time { awaited (asked 1299 ∷ comes 1000 1 ∷ []) ≡ Some 1300 }
    ensures silent { awaited (asked 1300 ∷ comes 1000 1 ∷ []) ≡ None }
    ensures late { awaited (comes 1400 1 ∷ asked 1300 ∷ comes 1000 1 ∷ []) ≡ Some 1700 }
    // Where the book is not asked it is awaited on, and told by the next one that asks.
    ensures not_asked { awaited (comes 1400 2 ∷ comes 1000 1 ∷ []) ≡ Some 1300 }
    ensures asked_before { awaited (comes 1400 2 ∷ asked 1299 ∷ comes 1000 1 ∷ []) ≡ Some 1300 }
    ensures asked_later { awaited (asked 1500 ∷ comes 1400 2 ∷ comes 1000 1 ∷ []) ≡ None }
    ensures came_meanwhile { awaited (asked 1500 ∷ comes 1400 1 ∷ comes 1000 1 ∷ []) ≡ Some 1700 }
    // Neither another event nor one to another node is it.
    ensures other { awaited (another_comes 1200 1 ∷ comes 1000 1 ∷ []) ≡ Some 1300 }
    ensures never { awaited (another_comes 1200 1 ∷ comes 1100 2 ∷ []) ≡ None }
{}

/// What ends a watch, by example.
pub fn watches_end()
    ensures subscription { awaited (unsubscribed 1100 4096 1 ∷ comes 1000 1 ∷ []) ≡ None }
    ensures of_another_service { awaited (unsubscribed 1100 4097 1 ∷ comes 1000 1 ∷ []) ≡ Some 1300 }
    ensures of_another_node { awaited (unsubscribed 1100 4096 2 ∷ comes 1000 1 ∷ []) ≡ Some 1300 }
    ensures offer { awaited (withdrawn 1100 4096 ∷ comes 1000 1 ∷ []) ≡ None }
    ensures another_offer { awaited (withdrawn 1100 4097 ∷ comes 1000 1 ∷ []) ≡ Some 1300 }
    ensures server { awaited (begins_again 1100 9 ∷ comes 1000 1 ∷ []) ≡ None }
    ensures client { awaited (begins_again 1100 1 ∷ comes 1000 1 ∷ []) ≡ None }
    ensures another_node { awaited (begins_again 1100 2 ∷ comes 1000 1 ∷ []) ≡ Some 1300 }
    ensures comes_again { awaited (comes 1200 1 ∷ unsubscribed 1100 4096 1 ∷ comes 1000 1 ∷ []) ≡ Some 1500 }
{}

/// A book that was never full watches exactly the flows that are watched by the steps so far, whenever it was asked.
pub fn a_book_watches_what_came()
    ensures { (limit : ℕ) (steps : List Step) (flow : EventFlow) → (book_of limit steps).told_full ≡ false
        → finite.get (book_of limit steps).watched flow ≡ watched_in steps flow }
{}

/// A flow is watched exactly where an event of it is among the steps, and since then neither another one came, nor
/// anything that ends its watch, nor was the book asked from its deadline on.
pub fn each_watch_has_its_reason()
    ensures { (flow : EventFlow) (watch : Watch) (steps : List Step)
        → (watched_in steps flow ≡ Some watch) ↔ IsWatched flow watch steps }
{}

/// What a book that was never full tells as silent had its last event three cycles before, and none since. Nor did
/// anything since end its watch, nor was it told. So it is of the first that the book tells, and of all that it tells
/// until nothing is left.
pub fn each_silence_has_its_reason()
    ensures first { (limit : ℕ) (steps : List Step) (now : ℕ) (told : SilentEvent) → (book_of limit steps).told_full ≡ false
        → FallsSilent now (book_of limit steps).watched (Some told) → IsToldSilent told steps }
    ensures all { (limit : ℕ) (steps : List Step) (now : ℕ) (told : List SilentEvent) (after : Cycles)
        → (book_of limit steps).told_full ≡ false → Tells now (book_of limit steps) told after
        → All (λ one. IsToldSilent one steps) told }
{}

/// A book that is asked until nothing is left watches on exactly what is not silent by that moment. What it told is
/// what is.
pub fn asking_leaves_what_is_not_silent()
    ensures left { (now : ℕ) (book after : Cycles) (told : List SilentEvent) → Tells now book told after
        → after ≡ without_silent now book }
    ensures silent { (now : ℕ) (book after : Cycles) (told : List SilentEvent) → Tells now book told after
        → All (λ (one : SilentEvent). one.at ≤ now) told }
{}

/// A silent event is told once: the book then watches its flow no more, and tells of that only once it was watched
/// again.
pub fn silence_is_told_once()
    ensures gone { (told : SilentEvent) (book : Cycles)
        → finite.get (after_silent (Some told) book).watched told.flow ≡ None }
    ensures only_watched { (now : ℕ) (told : SilentEvent) (book : Cycles) → finite.get book.watched told.flow ≡ None
        → FallsSilent now book.watched (Some told) → ⊥ }
{}

/// That a book is full is told once in its life.
pub fn full_is_told_once()
    ensures notes { (now cycle_ms : ℕ) (flow : EventFlow) (numbers : Numbers) (book : Cycles) → told_by flow book ≡ Some Full
        → (book.told_full ≡ false) × ((after_event now flow cycle_ms numbers book).told_full ≡ true) }
    ensures stays { (now cycle_ms : ℕ) (flow : EventFlow) (numbers : Numbers) (book : Cycles) → book.told_full ≡ true
        → (after_event now flow cycle_ms numbers book).told_full ≡ true }
{}
