ghost use Rattle.std.specs.Prelude.{◌≡◌, ◌≤◌, length};
ghost use Rattle.ht_base.specs.declared.limits.TheConstants.{LONGEST_OFFICE_TEXT};
ghost use Rattle.ht_program.specs.OfficeTexts.{AreShort, texts_seen};

use ht_base::Bytes;

/// The models text of a program that is given none.
const MODELS: &[u8] = b"[[model]]\nname = \"unit\"\npotentialOwners = \"everybody\"\n";

/// The people text of a program that is given none.
const PEOPLE: &[u8] =
    b"[[person]]\nname = \"p0\"\n[[person]]\nname = \"p1\"\n[[person]]\nname = \"p2\"\n[[person]]\nname = \"p3\"\n[[person]]\nname = \"p4\"\n[[person]]\nname = \"p5\"\n[[person]]\nname = \"p6\"\n[[person]]\nname = \"p7\"\n[[person]]\nname = \"p8\"\n[[person]]\nname = \"p9\"\n[[person]]\nname = \"p10\"\n[[person]]\nname = \"p11\"\n[[person]]\nname = \"p12\"\n[[person]]\nname = \"p13\"\n[[person]]\nname = \"p14\"\n[[person]]\nname = \"p15\"\n";

/// The two texts of an office: the built-in ones, or two that were read.
#[derive(Drop)]
pub enum OfficeTexts {
    BuiltIn,
    Read { models: Bytes, people: Bytes },
}

impl OfficeTexts {
    /// The models text.
    pub fn models(&self) -> &[u8]
        ensures { result.now ≡ (texts_seen self.now).models }
    {
        match self {
            OfficeTexts::BuiltIn => MODELS,
            OfficeTexts::Read { models, people: _ } => models.as_slice(),
        }
    }

    /// The people text.
    pub fn people(&self) -> &[u8]
        ensures { result.now ≡ (texts_seen self.now).people }
    {
        match self {
            OfficeTexts::BuiltIn => PEOPLE,
            OfficeTexts::Read { models: _, people } => people.as_slice(),
        }
    }
}
