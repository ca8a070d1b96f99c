ghost use Rattle.std.specs.Prelude.{◌≡◌};
ghost use Rattle.ht_wire.specs.Replies.{IsReplyStatus};
ghost use Rattle.ht_api.specs.Statuses.{answer_status, refusal_status};

use ht_base::{Answer, Refusal};

/// The status of an answer (RFC 9110, 15). It doesn't tell whether a task was created.
pub(crate) fn status_of(answer: &Answer) -> u16
    ensures status { result ≡ answer_status answer.now }
    ensures known { IsReplyStatus result }
{
    match answer {
        Answer::Done { .. } => 200,
        Answer::Turned => 200,
        Answer::Sheet(_) => 200,
        Answer::Page(_) => 200,
        Answer::Notices(_) => 200,
        Answer::Refused(refusal) => status_of_refusal(refusal),
    }
}

fn status_of_refusal(refusal: &Refusal) -> u16
    ensures status { result ≡ refusal_status refusal.now }
    ensures known { IsReplyStatus result }
{
    match refusal {
        Refusal::Head | Refusal::Json | Refusal::Field(_) => 400,
        Refusal::Fields => 431,
        Refusal::Coding => 501,
        Refusal::Body => 413,
        Refusal::Route => 404,
        Refusal::Method => 405,
        Refusal::Person => 401,
        Refusal::NumberStale { .. } | Refusal::NumberReused { .. } => 409,
        Refusal::Task(_) => 404,
        Refusal::Role { .. } => 403,
        Refusal::State { .. } => 409,
        Refusal::Unknown(_) | Refusal::PartRefused(_) => 422,
        Refusal::Ownerless | Refusal::ByGroup | Refusal::NoOwners => 422,
        Refusal::Excluded(_) | Refusal::NotDelegatee(_) => 422,
        Refusal::NoOutput(_) | Refusal::NotSkipable => 422,
        Refusal::UntilPast | Refusal::SubRefused(_) => 422,
        Refusal::Limit(_) => 507,
        Refusal::Store | Refusal::Spent => 503,
        Refusal::Memory => 500,
    }
}
