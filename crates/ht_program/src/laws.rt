ghost use Rattle.std.specs.Prelude.{◌≡◌, ℕ, List};
ghost use Rattle.ht_program.specs.Folding.{IsOutputOf, IsRefusedOneWay};
ghost use Rattle.ht_program.specs.Reports.{IsReportOf};

use ht_desk::the_records_of_an_office_lead_to_one_state;
use ht_load::a_load_has_one_line;
use ht_machine::one_outcome;
use ht_models::a_models_text_has_one_answer;
use ht_people::a_people_text_has_one_answer;

/// A law: what `run` writes without a fault, and with memory for each reply, is a function of
/// its words, its texts, the file of its journal and the bytes that it reads. It does nothing.
pub fn one_output()
    ensures { (words : List (List ℕ)) (told : List ℕ → List ℕ) (file bytes a b : List ℕ)
        → IsOutputOf words told file bytes a → IsOutputOf words told file bytes b
        → IsRefusedOneWay bytes → a ≡ b }
{
    one_outcome();
    the_records_of_an_office_lead_to_one_state();
}

/// A law: what `check`, `export` and `load` write is a function of their words, of their texts and of the
/// file of the journal; of a load where neither memory nor a disk nor the length of the journal refused a
/// request. It does nothing.
pub fn one_report()
    ensures { (words : List (List ℕ)) (told : List ℕ → List ℕ) (file a b : List ℕ)
        → IsReportOf words told file a → IsReportOf words told file b → a ≡ b }
{
    a_models_text_has_one_answer();
    a_people_text_has_one_answer();
    the_records_of_an_office_lead_to_one_state();
    a_load_has_one_line();
}
