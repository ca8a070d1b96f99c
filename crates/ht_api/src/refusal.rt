ghost use Rattle.std.specs.Prelude.{◌≡◌, codes};
ghost use Rattle.ht_base.specs.Name.{IsName};

use ht_base::{Memory, Name, Refusal};
use thiserror::Error;

/// Why a request makes no event.
#[derive(Clone, Copy, Debug, PartialEq, Eq, Error)]
pub enum ApiRefusal {
    /// No path of the interface is this one.
    #[error("no such route")]
    Route,
    /// The path is one of the interface, with another method.
    #[error("another method")]
    Method,
    /// The body is no JSON.
    #[error("no JSON")]
    Json,
    /// The value of this key is missing or doesn't fit. `body` where the body is no object, or has a
    /// key that isn't one of the operation's.
    #[error("a key is missing or doesn't fit")]
    Field(Name),
    /// The request names no caller.
    #[error("no person")]
    Person,
    #[error("out of memory")]
    Memory,
}

impl ApiRefusal {
    /// Of a key, or of `body`.
    pub(crate) fn of_key(key: &str) -> ApiRefusal
        requires { IsName key.now }
        ensures { result ≡ ApiRefusal.Field key.now }
    {
        match Name::of(key.as_bytes()) {
            Some(name) => ApiRefusal::Field(name),
            None => unreachable!(),
        }
    }
}

impl From<Memory> for ApiRefusal {
    ghost use Rattle.std.specs.Prelude.{◌≡◌};
    ghost use Rattle.ht_api.specs.declared.refusal.ApiRefusal.TheVariants.{Memory};

    ghost from_gives = { λ _ refusal. refusal ≡ Memory };

    fn from(_memory: Memory) -> ApiRefusal {
        ApiRefusal::Memory
    }
}

/// The refusal that the reply tells.
impl From<ApiRefusal> for Refusal {
    ghost use Rattle.std.specs.Prelude.{◌≡◌};
    ghost use Rattle.ht_api.specs.Refusals.{refusal_of};

    ghost from_gives = { λ why told. told ≡ refusal_of why };

    fn from(why: ApiRefusal) -> Refusal {
        match why {
            ApiRefusal::Route => Refusal::Route,
            ApiRefusal::Method => Refusal::Method,
            ApiRefusal::Json => Refusal::Json,
            ApiRefusal::Field(key) => Refusal::Field(key),
            ApiRefusal::Person => Refusal::Person,
            ApiRefusal::Memory => Refusal::Memory,
        }
    }
}
