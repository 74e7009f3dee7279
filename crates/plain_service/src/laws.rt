//! What holds of every answer of the plain service, as functions that do nothing.
ghost use Rattle.plain_service.specs.Languages.{OthersKeepTheProfile};
ghost use Rattle.plain_service.specs.Plain.{NeverAnswers503};
ghost use Rattle.plain_service.specs.AnswerCosts.{RestsOnEachOnce};
ghost use Rattle.plain_service.specs.Spent.{StayWithin, TakeAllUnchecked};

/// The plain service never answers 503. A service over many tenants answers that if it fails.
pub fn never_answers_503()
    ensures { NeverAnswers503 }
{}

/// What is spent for a question of the plain service is never more units than it costs. At most 1,028 answers
/// are checked for each makefile on which its answer rests. If one makefile at most is needed and no answer
/// is checked, all these units are spent.
pub fn spending_is_bounded()
    ensures within { StayWithin }
    ensures whole { TakeAllUnchecked }
{}

/// A request to any other route than `/v1/profile` leaves the profile of the tenant's world.
pub fn others_keep_the_profile()
    ensures { OthersKeepTheProfile }
{}

/// Along the trees of a search path, no makefile is twice, with the same flavors, among those on which an answer
/// rests. So each is counted once in the bound on the turns.
pub fn rests_on_each_once()
    ensures { RestsOnEachOnce }
{}
