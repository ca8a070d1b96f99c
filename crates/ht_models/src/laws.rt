ghost use Rattle.std.specs.Prelude.{◌≡◌, ◌≢◌, ◌⊎◌, ℕ, List, [], ◌∷◌, Err, Ok, Result};
ghost use Rattle.ht_models.specs.BuiltIn.{built_in_text, unit};
ghost use Rattle.ht_models.specs.Model.{ModelOf};
ghost use Rattle.ht_models.specs.Reading.{Reads};
ghost use Rattle.ht_models.specs.declared.refusal.ModelsRefusal.{ModelsRefusal};

/// A law: a models text is read to one answer, unless there is no memory. It does nothing.
pub fn a_models_text_has_one_answer()
    ensures { (text : List ℕ) (a b : Result (List ModelOf) ModelsRefusal) → Reads text a
        → Reads text b → a ≢ Err ModelsRefusal.Memory → b ≢ Err ModelsRefusal.Memory → a ≡ b }
{}

/// The models text of an office that brings none reads to one model, whose tasks everybody may own.
/// So a call that reads it answers that model, unless there is no memory.
pub fn built_in_text_reads()
    ensures reads { Reads built_in_text (Ok (unit ∷ [])) }
    ensures answered { (answer : Result (List ModelOf) ModelsRefusal) → Reads built_in_text answer
        → (answer ≡ Err ModelsRefusal.Memory) ⊎ (answer ≡ Ok (unit ∷ [])) }
{}
