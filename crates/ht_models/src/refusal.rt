use ht_base::Memory;
use ht_toml::DocumentFault;
use std::alloc::{AllocError, AllocFailed};
use thiserror::Error;

/// Why a models text is refused. The first cause in this order is the one that is told, at the
/// least place at which it stands; memory may run out at any time. A place counts the models from
/// 0, and what stands outside any model has place 0.
#[derive(Clone, Copy, Debug, PartialEq, Eq, Error)]
pub enum ModelsRefusal {
    #[error("not a TOML document")]
    Syntax,
    /// A key that isn't known, a missing one that must be there, or a value of another shape.
    #[error("model {0}: a key or its value")]
    Field(usize),
    /// An earlier model has this name, or two parts of one side, two sub entries, two deadlines or two
    /// escalations of one deadline have one name.
    #[error("model {0}: a name that stands twice")]
    Twice(usize),
    /// The model names one that isn't in the text.
    #[error("model {0}: an unknown model")]
    UnknownModel(usize),
    /// The model reaches itself.
    #[error("model {0}: a cycle")]
    Cycle(usize),
    /// An expression or an assignment of the model is refused, or is of another kind.
    #[error("model {0}: an expression")]
    Expression(usize),
    /// There are more models than there may be, which is told at place 0; or this model has more inputs,
    /// outputs, sub entries, deadlines of one kind or escalations of a deadline than it may, or its
    /// tree more levels, of which the model itself is one, or more tasks.
    #[error("model {0}: a limit")]
    Limit(usize),
    /// What the model says contradicts itself.
    #[error("model {0}: a contradiction")]
    Contradiction(usize),
    #[error("out of memory")]
    Memory,
}

impl From<DocumentFault> for ModelsRefusal {
    ghost use Rattle.std.specs.Prelude.{◌≡◌};
    ghost use Rattle.ht_models.specs.DocumentRefusals.{refusal_of};

    ghost from_gives = { λ fault refusal. refusal ≡ refusal_of fault };

    fn from(fault: DocumentFault) -> ModelsRefusal {
        match fault {
            DocumentFault::Syntax => ModelsRefusal::Syntax,
            DocumentFault::Memory => ModelsRefusal::Memory,
        }
    }
}

impl From<Memory> for ModelsRefusal {
    ghost use Rattle.std.specs.Prelude.{◌≡◌};
    ghost use Rattle.ht_models.specs.declared.refusal.ModelsRefusal.TheVariants as refusal;

    ghost from_gives = { λ _ told. told ≡ refusal.Memory };

    fn from(_memory: Memory) -> ModelsRefusal {
        ModelsRefusal::Memory
    }
}

impl From<AllocError> for ModelsRefusal {
    ghost use Rattle.std.specs.Prelude.{◌≡◌};
    ghost use Rattle.ht_models.specs.declared.refusal.ModelsRefusal.TheVariants.{Memory};

    ghost from_gives = { λ _ refusal. refusal ≡ Memory };

    fn from(_error: AllocError) -> ModelsRefusal {
        ModelsRefusal::Memory
    }
}

impl<T: Drop> From<AllocFailed<T>> for ModelsRefusal {
    ghost use Rattle.std.specs.Prelude.{◌≡◌};
    ghost use Rattle.ht_models.specs.declared.refusal.ModelsRefusal.TheVariants.{Memory};

    ghost from_gives = { λ _ refusal. refusal ≡ Memory };

    fn from(_error: AllocFailed<T>) -> ModelsRefusal {
        ModelsRefusal::Memory
    }
}
