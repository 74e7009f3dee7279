//! The route of the profile, `/v1/profile`.
ghost use Rattle.std.specs.Prelude.{◌≡◌};
ghost use Rattle.plain_service.specs.SettingAnswers.{profile_named, set_profile as set_profile_of};
ghost use Rattle.plain_service.specs.Questions as questions;
ghost use Rattle.plain_service.specs.Outcomes.{IfMade, Prepares};

use crate::change::{Change, Prepared};
use crate::questions::Question;
use crate::replies::{not_allowed, profile_set, refusal};
use crate::routes::Route;
use crate::spaces::trimmed;
use mk_text::Profile;
use ports_http::{Method, StatusCode};
use std::alloc::{AllocError, Global};

/// The question about the profile, which a PUT sets and nothing shows. It is settled by the refusal `Profile` if
/// the body of a PUT is no profile's number, and by `Method` for any other method. It fails only if memory runs out.
pub fn profile_question(alloc: Global, method: Method, body: &[u8]) -> Result<Question, AllocError>
    ensures { IfMade result (questions.profile_question body.now method) }
{
    match method {
        Method::Put => Ok(Question::Settled(set_profile(alloc, body)?)),
        Method::Get | Method::Delete => Ok(Question::settled(not_allowed(alloc, Route::Profile)?)),
    }
}

/// The change that sets the profile whose number the body of a PUT is, without the blanks and line feeds at
/// its ends.
fn set_profile(alloc: Global, body: &[u8]) -> Result<Prepared, AllocError>
    ensures { Prepares result (set_profile_of body.now) }
{
    match profile_named(trimmed(body)) {
        Some(profile) => Ok(Prepared {
            reply: profile_set(alloc, profile)?,
            change: Some(Change::SetProfile(profile)),
        }),
        None => {
            let reply = refusal(alloc, StatusCode::BAD_REQUEST, "Profile")?;
            Ok(Prepared::reply_alone(reply))
        }
    }
}

/// The profile of which the body of a PUT is the number.
fn profile_named(text: &[u8]) -> Option<Profile>
    ensures { result ≡ profile_named text.now }
{
    if text == b"1".as_slice() {
        return Some(Profile::One);
    }
    if text == b"2".as_slice() {
        return Some(Profile::Two);
    }
    None
}
