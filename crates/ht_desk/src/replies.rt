//! The replies for which nothing is decided, or what was decided isn't kept.
ghost use Rattle.std.specs.Prelude.{◌≡◌};
ghost use Rattle.ht_base.specs.declared.reply.Answer.TheVariants.{Refused};
ghost use Rattle.ht_desk.specs.Steps as spec;
ghost use Rattle.ht_machine.specs.Deciding.{reply_of};

use ht_base::{Answer, Limit, Refusal, Reply};

fn refused_with(refusal: Refusal) -> Reply
    ensures { result ≡ reply_of (Refused refusal) }
{
    Reply {
        taken: 0,
        answer: Answer::Refused(refusal),
    }
}

pub(crate) fn memory_reply() -> Reply
    ensures { result ≡ spec.memory_reply }
{
    refused_with(Refusal::Memory)
}

pub(crate) fn store_reply() -> Reply
    ensures { result ≡ spec.store_reply }
{
    refused_with(Refusal::Store)
}

pub(crate) fn full_reply() -> Reply
    ensures { result ≡ spec.full_reply }
{
    refused_with(Refusal::Limit(Limit::Journal))
}
