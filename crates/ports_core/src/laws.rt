//! What holds of every run of a service, as functions that do nothing.
ghost use Rattle.ports_core.specs.Changes.{EachEventChangesSoMuch};
ghost use Rattle.ports_core.specs.Books.{OneListIsTaken};
ghost use Rattle.ports_core.specs.Alike.{EqualRequestsAreToldAlike};
ghost use Rattle.ports_core.specs.Conversations.{EachConnectionConverses};
ghost use Rattle.ports_core.specs.Isolation.{EachRunServesPlainly, EachTenantIsToldPlainly, EqualSlicesAreToldAlike};
ghost use Rattle.ports_core.specs.Languages.{EachStaysInItsProfile};
ghost use Rattle.ports_core.specs.InTime.{EachRequestIsToldInTime, EachFirstHasTurnsLeft, EachRunIsToldInTime};

use plain_service::others_keep_the_profile;

/// What an event does to the tenants' worlds and waiting requests. The opening or the loss of a connection
/// changes nothing. Bytes that come or are written, or an end, add at most one request at the end of one
/// queue: the one that comes first on the event's connection, if nothing of that waits or is pending. A turn
/// of a tenant tells nothing, and changes no world and no queue. Or it takes that tenant's first request off its
/// queue, tells the reply to the connection that asked, and changes that tenant's world alone.
pub fn each_event_changes_so_much()
    ensures { EachEventChangesSoMuch }
{}

/// This holds in every run of a service from its beginning, whatever events come and whichever tenants have
/// turns. The replies told to a tenant, other than 503, are those of the plain service to the tenant's own
/// requests, in their order. The requests that still wait are left out.
pub fn each_tenant_is_told_plainly()
    ensures { EachTenantIsToldPlainly }
{}

/// In every run of a service from its beginning, what a connection's stream asks is answered by the
/// replies told to the connection, one for one and in order. Each is the plain one, one told at once, or
/// 503. What is written is these replies. If a connection was lost, what was written before is a front of
/// them, and nothing more is written.
pub fn each_connection_converses()
    ensures { EachConnectionConverses }
{}

/// The requests of a tenant that events take off their connections are one list, from any connections on.
/// It is read off these connections, the events and what was told, even if a head may be refused in two
/// ways or waited for.
pub fn one_list_is_taken()
    ensures { OneListIsTaken }
{}

/// If a tenant's own requests in one run are, by method, target and body, those of a tenant in another run,
/// their replies are equal as far as both lists of replies go. Once none of their requests waits, all their
/// replies are equal. What others stored, asked or left unread in either run changes nothing.
pub fn equal_requests_are_told_alike()
    ensures { EqualRequestsAreToldAlike }
{}

/// In a run from any state, take the requests of a tenant that waited and those that came, less those
/// answered 503. The first of them are answered, and the others still wait. The replies, and the tenant's
/// world after the run, are those of the plain service over the world that the tenant had.
pub fn each_run_serves_plainly()
    ensures { EachRunServesPlainly }
{}

/// Take two services in any states, and a tenant of each, with equal worlds and equal requests waiting. If
/// the same requests come for both, and neither gets 503, their replies are equal as far as both lists of
/// replies go. If none of their requests waits at the end, all their replies are equal, and so are their
/// worlds. What else the services hold changes nothing.
pub fn equal_slices_are_told_alike()
    ensures { EqualSlicesAreToldAlike }
{}

/// Each request is told its reply within a number of its tenant's own turns. That number is 1, and one more for
/// each makefile on which the reply rests. To this comes one for each 1,000 of the units that the reply costs and
/// of the checks that may come, of which 1,028 are counted for each makefile. The world is the one over which the
/// request is answered.
///
/// Take a run from any state in which the first request of a tenant has had fewer turns. If no reply is told to
/// the tenant, these turns and the tenant's own turns in the run are fewer together. This holds whatever else happens,
/// as long as that sum is below 2^64. In each state that a run reaches from the beginning, the first request of each
/// tenant has had fewer turns. In a run from the beginning of fewer than 2^64 events the sum is below 2^64.
pub fn each_request_is_told_in_time()
    ensures told { EachRequestIsToldInTime }
    ensures begun { EachFirstHasTurnsLeft }
    ensures run { EachRunIsToldInTime }
{}

/// A tenant that asks for no profile keeps its own, in every run from any state: each of its requests is answered in
/// the profile that it had. A tenant begins in profile 1, so it stays there until it goes to `/v1/profile` itself.
pub fn each_stays_in_its_profile()
    ensures { EachStaysInItsProfile }
{
    others_keep_the_profile();
}
