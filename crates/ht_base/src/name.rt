ghost use Rattle.std.specs.Prelude.{◌≡◌, ◌-◌, ◌≤◌, ◌++◌, length, replicate};
ghost use Rattle.std.specs.List.{list_all};
ghost use Rattle.ht_base.specs.Name.{is_name_byte, is_name, name_of, IsName};

use crate::LONGEST_NAME;
use std::cmp::Ordering;
use std::marker::Model;
use std::str;

/// A name of a person, a group, a model or a part: 1 to [`LONGEST_NAME`] bytes from `a-z A-Z 0-9 _ . -`. A
/// contract sees it as its bytes, by which it is compared.
#[derive(Clone, Copy, Debug)]
pub struct Name {
    // Padded with 0.
    bytes: [u8; LONGEST_NAME],
    len: u8,
}

impl Model for Name {
    ghost use Rattle.std.specs.Prelude.{ℕ, List};

    ghost Value = { List ℕ };

    ghost use Rattle.ht_base.specs.NameBytes.{bytes_of, IsKept, kept, kept_bytes_of};

    ghost view = { bytes_of };

    ghost invariant = { IsKept };

    ghost inverse = { kept };

    ghost inverse_ok = { kept_bytes_of };
}

impl Name {
    /// The name with these bytes, if they are one's.
    pub fn of(bytes: &[u8]) -> Option<Name>
        ensures { result ≡ name_of bytes.now }
    {
        if !spells_name(bytes) {
            return None;
        }
        Some(Name {
            bytes: padded(bytes),
            len: bytes.len() as u8,
        })
    }

    /// Its bytes.
    pub fn as_bytes(&self) -> &[u8]
        ensures value { result.now ≡ self.now }
        ensures name { IsName self.now }
        ensures short { length self.now ≤ LONGEST_NAME }
    {
        &self.bytes[..usize::from(self.len)]
    }

    /// Its bytes as a text.
    pub fn as_str(&self) -> &str
        ensures value { result.now ≡ self.now }
        ensures name { IsName self.now }
    {
        let bytes = self.as_bytes();
        unsafe { str::from_utf8_unchecked(bytes) }
    }
}

fn spells_name(bytes: &[u8]) -> bool
    ensures { result ≡ is_name bytes.now }
{
    !bytes.is_empty() && bytes.len() <= LONGEST_NAME && all_allowed(bytes)
}

fn all_allowed(bytes: &[u8]) -> bool
    ensures { result ≡ list_all is_name_byte bytes.now }
{
    bytes.iter().all(|byte| is_allowed(*byte))
}

fn padded(bytes: &[u8]) -> [u8; LONGEST_NAME]
    requires { length bytes.now ≤ LONGEST_NAME }
    ensures { result ≡ bytes.now ++ replicate (LONGEST_NAME - length bytes.now) 0 }
{
    let mut padded = [0; LONGEST_NAME];
    padded[..bytes.len()].copy_from_slice(bytes);
    padded
}

fn is_allowed(byte: u8) -> bool
    ensures { result ≡ is_name_byte byte }
{
    byte.is_ascii_alphanumeric() || byte == b'_' || byte == b'.' || byte == b'-'
}

impl PartialEq for Name {
    ghost use Rattle.std.specs.Prelude.{nat_eq};
    ghost use Rattle.std.specs.Cmp.Lexicographic.{pointwise, nat_list_eq_equiv};
    ghost use Rattle.std.specs.Cmp.{partial_equiv_from_equiv};

    ghost eq = { pointwise nat_eq };

    ghost laws = { partial_equiv_from_equiv nat_list_eq_equiv };

    fn eq(&self, other: &Name) -> bool {
        self.as_bytes() == other.as_bytes()
    }
}

impl Eq for Name {
    ghost use Rattle.std.specs.Cmp.Lexicographic.{nat_list_eq_equiv};

    ghost laws = { nat_list_eq_equiv };
}

impl PartialOrd for Name {
    ghost use Rattle.std.specs.Prelude.{Some};
    ghost use Rattle.std.specs.Ordering.{nat_cmp};
    ghost use Rattle.std.specs.Cmp.Lexicographic.{slice_cmp, texts_po};

    ghost partial_cmp = { λ a b. Some (slice_cmp nat_cmp a b) };

    ghost laws = { texts_po };

    fn partial_cmp(&self, other: &Name) -> Option<Ordering> {
        Some(self.cmp(other))
    }
}

impl Ord for Name {
    ghost use Rattle.std.specs.Prelude.{refl};
    ghost use Rattle.std.specs.Ordering.{nat_cmp};
    ghost use Rattle.std.specs.Cmp.Lexicographic.{slice_cmp, nat_list_cmp_total, texts_ties};

    ghost cmp = { slice_cmp nat_cmp };

    ghost total = { nat_list_cmp_total };

    ghost matches_partial_cmp = { λ a b. refl };

    ghost matches_eq = { texts_ties };

    fn cmp(&self, other: &Name) -> Ordering {
        self.as_bytes().cmp(other.as_bytes())
    }
}
