ghost use Rattle.std.specs.Prelude.{◌≡◌, ◌+◌, ◌≤◌, ◌++◌, decimal, length};

use arrayvec::ArrayVec;

// Four numbers of at most 10 digits, and 36 bytes beside them.
pub(crate) type Line = ArrayVec<u8, 76>;

/// Puts a number behind words, for which there is room.
pub(crate) fn put_number(line: &mut Line, words: &[u8], n: u32)
    requires { length line.old.items + length words.now + 10 ≤ 76 }
    ensures text { line.new.items ≡ line.old.items ++ words.now ++ decimal n }
    ensures short { length line.new.items ≤ length line.old.items + length words.now + 10 }
{
    let mut digits = itoa::Buffer::new();
    put(line, words);
    put(line, digits.format(n).as_bytes());
}

/// Puts bytes behind those that are there, for which there is room.
pub(crate) fn put(line: &mut Line, bytes: &[u8])
    requires { length line.old.items + length bytes.now ≤ 76 }
    ensures { line.new.items ≡ line.old.items ++ bytes.now }
{
    let _ = line.try_extend_from_slice(bytes);
}
