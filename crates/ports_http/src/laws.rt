//! What holds of streams of requests however they are cut into pieces. Each function does nothing: its clause
//! is the law.
ghost use Rattle.ports_http.specs.Laws.{RequestStays, RefusalStays, WaitingHasRoom, OneCutting, RequestsStay};
ghost use Rattle.ports_http.specs.Laws.{NextRequest, CutsOn, CutsFrom};

/// If a request comes first in the bytes of a stream, it still does if more bytes follow.
pub fn request_stays()
    ensures { RequestStays }
{}

/// If a head refusal comes first in the bytes of a stream, it still does if more bytes follow.
pub fn refusal_stays()
    ensures { RefusalStays }
{}

/// What a connection holds unread while it waits for the rest of a request is less than it may hold.
pub fn waiting_has_room()
    ensures { WaitingHasRoom }
{}

/// Two cuttings of a stream into pieces have the same requests. They also have the same end, unless 400, 431
/// and waiting are all allowed. These are allowed if more than 32 field lines begin, or if the bytes end in a
/// target.
pub fn one_cutting()
    ensures { OneCutting }
{}

/// If requests come first in the bytes of a stream, they still do if more bytes follow.
pub fn requests_stay()
    ensures { RequestsStay }
{}

/// The next request of a stream comes after those that were taken.
pub fn next_request()
    ensures { NextRequest }
{}

/// The requests taken from a stream, and then a cutting of what is unread, cut the whole stream.
pub fn cuts_on()
    ensures { CutsOn }
{}

/// Each cutting of a stream begins with the requests taken, and goes on with a cutting of what is unread.
pub fn cuts_from()
    ensures { CutsFrom }
{}
