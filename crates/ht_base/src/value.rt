ghost use Rattle.std.specs.Prelude.{◌≡◌, IfOk};
ghost use Rattle.ht_base.specs.Kinds.{kind_of_value};

use crate::{Kind, Memory, Moment, Person, Txt};
use std::alloc::Global;

/// The value of a task's part, of the kind that its model declares.
#[derive(Drop)]
pub enum Value {
    Text(Txt),
    Int(i64),
    Truth(bool),
    Person(Person),
    Instant(Moment),
}

impl Value {
    pub fn kind(&self) -> Kind
        ensures { result ≡ kind_of_value self.now }
    {
        match self {
            Value::Text(_) => Kind::Text,
            Value::Int(_) => Kind::Int,
            Value::Truth(_) => Kind::Truth,
            Value::Person(_) => Kind::Person,
            Value::Instant(_) => Kind::Instant,
        }
    }

    pub fn copy(&self, alloc: Global) -> Result<Value, Memory>
        ensures { IfOk result (λ v. v ≡ self.now) }
    {
        match self {
            Value::Text(text) => Ok(Value::Text(text.copy(alloc)?)),
            Value::Int(number) => Ok(Value::Int(*number)),
            Value::Truth(truth) => Ok(Value::Truth(*truth)),
            Value::Person(person) => Ok(Value::Person(*person)),
            Value::Instant(moment) => Ok(Value::Instant(*moment)),
        }
    }
}
