ghost use Rattle.std.specs.Prelude.{◌≡◌};
ghost use Rattle.ht_base.specs.Periods as period_texts;
ghost use Rattle.ht_entries.specs.Instants as instant_texts;

use crate::instants::instant;
use ht_base::{Moment, period};
use ht_toml::Shape;
use std::alloc::{AllocError, Global};
use std::marker::Model;
use toml::Value;

/// A period of time in milliseconds.
#[derive(Drop)]
pub struct Period(pub u64);

impl Model for Period {
    ghost use Rattle.std.specs.Prelude.{ℕ};

    ghost Value = { ℕ };

    ghost view = { λ p. p.0 };
}

impl Shape for Period {
    ghost use Rattle.ht_entries.specs.Times.{period_of};

    ghost of = { period_of };

    fn read(_alloc: Global, value: &Value) -> Result<Option<Period>, AllocError> {
        match value.as_str() {
            Some(text) => Ok(period_in(text)),
            None => Ok(None),
        }
    }
}

fn period_in(text: &str) -> Option<Period>
    ensures { result ≡ period_texts.period_of text.now }
{
    match period(text) {
        Some(milliseconds) => Some(Period(milliseconds)),
        None => None,
    }
}

/// A point in time.
#[derive(Drop)]
pub struct Instant(pub Moment);

impl Model for Instant {
    ghost use Rattle.ht_base.specs.declared.moment.Moment.{Moment as At};

    ghost Value = { At };

    ghost view = { λ i. i.0 };
}

impl Shape for Instant {
    ghost use Rattle.ht_entries.specs.Times.{instant_of};

    ghost of = { instant_of };

    fn read(_alloc: Global, value: &Value) -> Result<Option<Instant>, AllocError> {
        match value.as_str() {
            Some(text) => Ok(instant_in(text)),
            None => Ok(None),
        }
    }
}

fn instant_in(text: &str) -> Option<Instant>
    ensures { result ≡ instant_texts.instant_of text.now }
{
    match instant(text) {
        Some(moment) => Some(Instant(moment)),
        None => None,
    }
}
