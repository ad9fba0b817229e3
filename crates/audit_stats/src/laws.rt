//! Laws of the definitions behind the contracts. Each is the contract of a function that does nothing: it says what
//! figures tell of a recording, whatever code keeps them.
ghost use Rattle.std.specs.Prelude.{◌≡◌, ◌<◌, ◌≤◌, ◌+◌, ◌^◌, ℕ, max, Bool, List, [], ◌∷◌, length, slice_get, None, Some, true, false};
ghost use Rattle.std.specs.FinMap as finite;
ghost use Rattle.someip_wire.specs.declared.header.MessageType.TheVariants as types;
ghost use Rattle.audit_stats.specs.Changes.{after_call, no_calls, no_discovery, no_events, unanswered_of};
ghost use Rattle.audit_stats.specs.declared.discovery.DiscoveryFigures.{DiscoveryFigures};
ghost use Rattle.audit_stats.specs.declared.events.EventFigures.{EventFigures};
ghost use Rattle.audit_stats.specs.declared.full.FigureLimits.{FigureLimits};
ghost use Rattle.audit_stats.specs.declared.full.Full.{Full};
ghost use Rattle.audit_stats.specs.declared.keys.Call.{Call};
ghost use Rattle.audit_stats.specs.declared.keys.Flow.{Flow};
ghost use Rattle.audit_stats.specs.declared.keys.Way.{Way};
ghost use Rattle.audit_stats.specs.declared.methods.CallChange.TheVariants as of_call;
ghost use Rattle.audit_stats.specs.declared.methods.MethodFigures.{MethodFigures};
ghost use Rattle.audit_stats.specs.declared.sight.Load.{Load};
ghost use Rattle.audit_stats.specs.declared.sight.Sight.TheVariants.{Answered, Called, Event};
ghost use Rattle.audit_stats.specs.Examples.{answers, asks, event, first, last, method, one_unasked, sends, two_calls, two_segments};
ghost use Rattle.audit_stats.specs.Histories.{AreCounted, cycles_of, discovery_figures, event_figures, how_often, is_message, is_request, latencies_of, method_figures};
ghost use Rattle.audit_stats.specs.Ranks.{AreBelow, IsNear, IsOfRank, Rises};
ghost use Rattle.audit_stats.specs.Spreads.{bucket_at, low_end, quantile, rank_of, spread_of};
ghost use Rattle.audit_stats.specs.Stats.{Discovered, Fact, Lost, Stats, after_fact, after_sight, has_told, stats_of, told_of_fact};
ghost use Rattle.audit_stats.specs.Tables.{counted, full_told, has_room};

/// A quantile below 2^32 that is told is not more than the exact one, and less by at most a 32nd of what is told. For one
/// that is 2^32 or more the low end of the last bucket is told, or the least value where that is greater.
pub fn told_quantiles_are_near()
    ensures near { (percent : ℕ) (values : List ℕ) (value : ℕ) → length values < 2 ^ 64
        → IsOfRank (rank_of percent (length values)) value values → value < 2 ^ 32
        → IsNear (quantile percent (spread_of values)) value }
    ensures beyond { (percent : ℕ) (values : List ℕ) (value : ℕ) → length values < 2 ^ 64
        → IsOfRank (rank_of percent (length values)) value values → 2 ^ 32 ≤ value
        → quantile percent (spread_of values) ≡ max (spread_of values).least 4227858432 }
{}

/// The value of a rank is the one at that place of a list that rises. Each rank up to the number of values has a value,
/// and one alone.
pub fn ranks_are_places()
    ensures place { (values : List ℕ) (place value : ℕ) → Rises 0 values → slice_get values place ≡ Some value
        → IsOfRank (place + 1) value values }
    ensures one { (rank value other : ℕ) (values : List ℕ) → IsOfRank rank value values
        → IsOfRank rank other values → value ≡ other }
    ensures some { (bound rank : ℕ) (values : List ℕ) → AreBelow bound values → 0 < rank → rank ≤ length values
        → (value : ℕ) × IsOfRank rank value values }
{}

/// The least value and the greatest are exact: they are those of the first rank and of the last. So is the count of fewer
/// than 2^64 values.
pub fn extremes_are_exact()
    ensures count { (values : List ℕ) → length values < 2 ^ 64 → (spread_of values).count ≡ length values }
    ensures ranks { (values : List ℕ) → AreBelow (2 ^ 64) values → 0 < length values
        → IsOfRank 1 (spread_of values).least values
        × IsOfRank (length values) (spread_of values).greatest values }
{}

/// Buckets by example: up to 63 each value has its own; from 64 on two values have one, from 128 on four, and what is
/// 2^32 or more lies in the last.
#[tactic(auto, unfolding(crate::specs::Spreads::low_within))]
pub fn buckets_by_example()
    ensures none { low_end 0 ≡ 0 }
    ensures small { low_end 63 ≡ 63 }
    ensures first { low_end 64 ≡ 64 }
    ensures same { low_end 65 ≡ 64 }
    ensures next { low_end 66 ≡ 66 }
    ensures four { low_end 131 ≡ 128 }
    ensures after_four { low_end 132 ≡ 132 }
    ensures a_second { low_end 1000000 ≡ 999424 }
    ensures last { low_end 4294967295 ≡ 4227858432 }
    ensures greater { low_end 4294967296 ≡ 4227858432 }
{}

/// Ranks by example, and the bucket of a rank: of 1000 values the median has rank 500, of 3 the second, and the
/// quantile of 99 percent the third.
pub fn ranks_by_example()
    ensures thousand { rank_of 50 1000 ≡ 500 }
    ensures median { rank_of 50 3 ≡ 2 }
    ensures high { rank_of 99 3 ≡ 3 }
    ensures hundred { rank_of 99 100 ≡ 99 }
    ensures more { rank_of 99 101 ≡ 100 }
    ensures all { rank_of 100 7 ≡ 7 }
    ensures low { bucket_at 3 ((10, 3) ∷ (64, 2) ∷ []) ≡ 10 }
    ensures beyond { bucket_at 4 ((10, 3) ∷ (64, 2) ∷ []) ≡ 64 }
    ensures values { IsOfRank 2 20 (30 ∷ 10 ∷ 20 ∷ []) }
{}

/// The figures of a method have just how many calls, answers and errors came, also where other methods had no room.
pub fn calls_and_answers_are_counted()
    ensures { (limits : FigureLimits) (facts : List Fact) (flow : Flow) (figures : MethodFigures)
        → finite.get (stats_of limits facts).methods.values flow ≡ Some figures
        → AreCounted flow facts figures }
{}

/// The figures of an event are those of its history, also where other events had no room. Of an event without figures
/// there is nothing to count, if there was always room.
pub fn events_are_counted()
    ensures held { (limits : FigureLimits) (facts : List Fact) (flow : Flow) (figures : EventFigures)
        → finite.get (stats_of limits facts).events.values flow ≡ Some figures
        → figures ≡ event_figures flow facts }
    ensures others { (limits : FigureLimits) (facts : List Fact) (flow : Flow)
        → (stats_of limits facts).events.told_full ≡ false
        → finite.get (stats_of limits facts).events.values flow ≡ None
        → event_figures flow facts ≡ no_events }
{}

/// The figures of a way of Service Discovery are those of its history, also where other ways had no room. Of a way
/// without figures there is nothing to count, if there was always room.
pub fn discovery_is_counted()
    ensures held { (limits : FigureLimits) (facts : List Fact) (way : Way) (figures : DiscoveryFigures)
        → finite.get (stats_of limits facts).discovery.values way ≡ Some figures
        → figures ≡ discovery_figures way facts }
    ensures others { (limits : FigureLimits) (facts : List Fact) (way : Way)
        → (stats_of limits facts).discovery.told_full ≡ false
        → finite.get (stats_of limits facts).discovery.values way ≡ None
        → discovery_figures way facts ≡ no_discovery }
{}

/// The figures of a method are those of its history, as long as there was room for each call that waits, also where
/// other methods had no room. Of a method without figures there is nothing to count, if there was always room.
pub fn methods_are_counted()
    ensures held { (limits : FigureLimits) (facts : List Fact) (flow : Flow) (figures : MethodFigures)
        → (stats_of limits facts).waiting.told_full ≡ false
        → finite.get (stats_of limits facts).methods.values flow ≡ Some figures
        → figures ≡ method_figures flow facts }
    ensures others { (limits : FigureLimits) (facts : List Fact) (flow : Flow)
        → (stats_of limits facts).methods.told_full ≡ false → (stats_of limits facts).waiting.told_full ≡ false
        → finite.get (stats_of limits facts).methods.values flow ≡ None
        → method_figures flow facts ≡ no_calls }
{}

/// A message on a flow without room changes nothing, but that it is noted that there is none; nor does one of Service
/// Discovery on a way without room. A call without room among those that wait is counted as one that is not waited for.
pub fn what_has_no_room_changes_nothing_else()
    ensures calls { (now : ℕ) (call : Call) (asks : Bool) (s : Stats) → has_room call.flow s.methods ≡ false
        → after_sight now (Called call asks) s ≡ record s { methods = full_told s.methods } }
    ensures answers { (now : ℕ) (call : Call) (fails : Bool) (s : Stats) → has_room call.flow s.methods ≡ false
        → after_sight now (Answered call fails) s ≡ record s { methods = full_told s.methods } }
    ensures events { (now : ℕ) (flow : Flow) (load : Load) (s : Stats) → has_room flow s.events ≡ false
        → after_sight now (Event flow load) s ≡ record s { events = full_told s.events } }
    ensures discovery { (way : Way) (s : Stats) → has_room way s.discovery ≡ false
        → after_fact (Discovered way) s ≡ record s { discovery = full_told s.discovery } }
    ensures waiting { (now : ℕ) (call : Call) (s : Stats) → has_room call.flow s.methods ≡ true
        → has_room call s.waiting ≡ false
        → after_sight now (Called call true) s ≡ record s {
          methods = counted no_calls after_call call.flow (of_call.Called false) s.methods;
          waiting = full_told s.waiting;
        } }
{}

/// That there is no room is told once for each of the four.
pub fn full_is_told_once()
    ensures notes { (fact : Fact) (s : Stats) (told : Full) → told_of_fact fact s ≡ Some told
        → (has_told told s ≡ false) × (has_told told (after_fact fact s) ≡ true) }
    ensures stays { (fact : Fact) (s : Stats) (told : Full) → has_told told s ≡ true
        → has_told told (after_fact fact s) ≡ true }
{}

/// Calls by example: an answer is for the newest call with its key, 400 microseconds before; a second answer is for none,
/// and the first call stays without one. An answer with another session is for none.
pub fn calls_by_example()
    ensures latency { latencies_of method two_calls ≡ 400 ∷ [] }
    ensures again { latencies_of method (answers 950 7 types.Response 0 ∷ two_calls) ≡ 400 ∷ [] }
    ensures unanswered { unanswered_of (method_figures method two_calls) ≡ 1 }
    ensures another { latencies_of method one_unasked ≡ [] }
    ensures still { unanswered_of (method_figures method one_unasked) ≡ 1 }
    ensures no_return { unanswered_of (method_figures method (asks 500 7 types.RequestNoReturn [] ∷ [])) ≡ 0 }
    ensures counted { (method_figures method (asks 950 7 types.RequestNoReturn [] ∷ two_calls)).calls ≡ 3 }
    // A call in segments comes with the last one.
    ensures first { (method_figures method (asks 500 7 types.TpRequest first ∷ [])).calls ≡ 0 }
    ensures last { (method_figures method
        (asks 600 7 types.TpRequest last ∷ asks 500 7 types.TpRequest first ∷ [])).calls ≡ 1 }
{}

/// Errors by example: an answer of type ERROR is one, whatever its return code, and so is a RESPONSE with another return
/// code than E_OK.
pub fn errors_by_example()
    ensures none { (method_figures method (answers 900 7 types.Response 0 ∷ [])).errors ≡ 0 }
    ensures code { (method_figures method (answers 900 7 types.Response 1 ∷ [])).errors ≡ 1 }
    ensures of_type { (method_figures method (answers 900 7 types.Error 0 ∷ [])).errors ≡ 1 }
    ensures answers { (method_figures method
        (answers 900 7 types.Error 0 ∷ answers 900 7 types.Response 0 ∷ [])).answers ≡ 2 }
{}

/// Events by example: three bytes of payload, and in two segments two bytes without the TP headers. What has no room for
/// a TP header counts for nothing.
pub fn events_by_example()
    ensures bytes { (event_figures event (sends 100 types.Notification (1 ∷ 2 ∷ 3 ∷ []) ∷ [])).bytes ≡ 3 }
    ensures segments { (event_figures event two_segments).bytes ≡ 2 }
    ensures once { (event_figures event two_segments).count ≡ 1 }
    ensures short { event_figures event (sends 100 types.TpNotification (0 ∷ 0 ∷ 0 ∷ []) ∷ []) ≡ no_events }
    ensures cycles { cycles_of event (sends 350 types.Notification [] ∷ sends 300 types.Notification []
        ∷ sends 100 types.Notification [] ∷ []) ≡ 50 ∷ 200 ∷ [] }
    ensures gaps { (event_figures event (Lost event 3 ∷ Lost event 4 ∷ [])).gaps ≡ 7 }
    // What goes from the client to the server is another flow.
    ensures another { event_figures event (asks 100 7 types.Notification [] ∷ []) ≡ no_events }
{}

/// No more answers of a method have a latency than calls wanted one: so those that are left are unanswered.
pub fn no_more_are_answered_than_asked()
    ensures { (flow : Flow) (facts : List Fact)
        → length (latencies_of flow facts) ≤ how_often (is_message (is_request flow)) facts }
{}
