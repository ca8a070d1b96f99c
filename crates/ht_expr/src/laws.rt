//! Laws of reading, for proofs alone: the functions do nothing.
ghost use Rattle.std.specs.Prelude.{◌≡◌, ◌≢◌, ◌≤◌, ℕ, List, Result, length};
ghost use Rattle.std.specs.Str.{IsUtf8};
ghost use Rattle.ht_base.specs.declared.limits.TheConstants.{MOST_TOKENS};
ghost use Rattle.ht_expr.specs.Kinds.{Declared};
ghost use Rattle.ht_expr.specs.Reading.{AreWritable, IsWritten, Reads};
ghost use Rattle.ht_expr.specs.Trees.{Fits, Tree, tokens_of};
ghost use Rattle.ht_expr.specs.declared.levels.TheConstants as levels;
ghost use Rattle.ht_expr.specs.declared.refusal.ExprRefusal.{ExprRefusal};

/// But for want of memory each text has one answer, as an expression and as an assignment, which are
/// the trees of two levels: one tree, or one refusal. So it is whatever parts are declared.
pub fn each_text_has_one_answer()
    ensures tree { (level : ℕ) (text : List ℕ) (a b : Tree) → IsWritten level text a
        → IsWritten level text b → a ≡ b }
    ensures one { (kinds : Declared) (level : ℕ) (text : List ℕ) (a b : Result Tree ExprRefusal)
        → Reads kinds level text a → Reads kinds level text b → a ≢ Err ExprRefusal.Memory
        → b ≢ Err ExprRefusal.Memory → a ≡ b }
    ensures some { (kinds : Declared) (level : ℕ) (text : List ℕ) → level ≤ levels.ASSIGNMENT
        → IsUtf8 text
        → (a : Result Tree ExprRefusal) × Reads kinds level text a × (a ≢ Err ExprRefusal.Memory) }
{}

/// Each tree whose tokens can be written, no more than there may be, is what some text is written as. So it is read
/// where its kinds fit, and else refused for them.
pub fn each_tree_has_a_text()
    ensures { (level : ℕ) (a : Tree) → Fits level a → AreWritable (tokens_of a)
        → length (tokens_of a) ≤ MOST_TOKENS
        → (text : List ℕ) × IsUtf8 text × IsWritten level text a }
{}
