//! Laws of the definitions behind the contracts. Each is the contract of a function that does
//! nothing: it says what holds of calls and requests, whatever code keeps them.
ghost use Rattle.std.specs.Prelude.{◌≡◌, ◌≢◌, ◌<◌, ◌≤◌, ℕ, true, false, Option, Some};
ghost use Rattle.someip_wire.specs.declared.header.Header.{Header};
ghost use Rattle.someip_wire.specs.declared.header.MessageType.{MessageType};
ghost use Rattle.someip_wire.specs.declared.header.MessageType.TheVariants as kinds;
ghost use Rattle.someip_rpc.specs.declared.error.RpcError.TheVariants.{NotSubscribed, TooLong};
ghost use Rattle.someip_rpc.specs.declared.ids.MessageId.{MessageId};
ghost use Rattle.someip_rpc.specs.declared.publication.Subscriber.{Subscriber};
ghost use Rattle.someip_rpc.specs.declared.request.Arrived.{Arrived};
ghost use Rattle.someip_rpc.specs.declared.request.Arrived.TheVariants as arrived;
ghost use Rattle.someip_rpc.specs.declared.request.Asked.{Asked};
ghost use Rattle.someip_rpc.specs.declared.request.RequestFault.{RequestFault};
ghost use Rattle.someip_rpc.specs.declared.request.RequestFault.TheVariants.{UnknownService, WrongInterface, UnknownMethod, WrongType, NotReady};
ghost use Rattle.someip_rpc.specs.declared.service.ServiceRules.{ServiceRules};
ghost use Rattle.someip_rpc.specs.Calls.{IsFirstFree, Pending};
ghost use Rattle.someip_rpc.specs.Events.{belongs, publish_to_refusal};
ghost use Rattle.someip_rpc.specs.Requests.{BecomesOf, OpenRequests, fault_code, request_fault};

/// The session that a call takes is determined by what waits and by where the search begins.
pub fn a_call_has_one_session()
    ensures { (live : Pending) (message : MessageId) (first one other : ℕ)
        → IsFirstFree live message first one → IsFirstFree live message first other → one ≡ other }
{}

/// The Return Codes of the ERRORs that refuse a request (SOME/IP Protocol, "Return Code").
pub fn faults_have_codes()
    ensures unknown_service { fault_code UnknownService ≡ 0x02 }
    ensures wrong_interface { fault_code WrongInterface ≡ 0x08 }
    ensures unknown_method { fault_code UnknownMethod ≡ 0x03 }
    ensures wrong_type { fault_code WrongType ≡ 0x0A }
    ensures not_ready { fault_code NotReady ≡ 0x04 }
{}

/// An instance that is down takes nothing: each request to it is `UnknownService`.
pub fn an_instance_that_is_down_takes_nothing()
    ensures { (rules : ServiceRules) (header : Header) (requests : OpenRequests) (next : ℕ)
        → request_fault rules false header requests next ≡ Some UnknownService }
{}

/// What is neither REQUEST nor REQUEST_NO_RETURN is dropped as `WrongType`, whatever the checks say.
pub fn what_is_no_request_is_dropped()
    ensures { (kind : MessageType) (request : Asked) (next : ℕ) (fault : Option RequestFault)
        (becomes : Arrived) → kind ≢ kinds.Request → kind ≢ kinds.RequestNoReturn
        → BecomesOf request next kind fault becomes → becomes ≡ arrived.Dropped WrongType }
{}

/// An event of the eventgroup, of an instance that is up, is too long for one subscriber wherever its
/// payload is above the message limit, and only one that fits is refused because no subscription is
/// live.
pub fn too_long_comes_before_not_subscribed()
    ensures too_long { (rules : ServiceRules) (subscriber : Subscriber) (limit event size : ℕ)
        → belongs rules event subscriber.eventgroup ≡ true → limit < size
        → publish_to_refusal rules true limit subscriber event size ≡ Some TooLong }
    ensures not_subscribed { (rules : ServiceRules) (subscriber : Subscriber)
        (limit event size : ℕ) → belongs rules event subscriber.eventgroup ≡ true → size ≤ limit
        → subscriber.is_live ≡ false
        → publish_to_refusal rules true limit subscriber event size ≡ Some NotSubscribed }
{}
