ghost use Rattle.std.specs.Prelude.{◌≡◌, ◌^◌, length};
ghost use Rattle.std.specs.Int.{w16, w32, w64};
ghost use Rattle.ht_codec.specs.Forms.{byte, number};
ghost use Rattle.ht_codec.specs.Reading.{Gives};

use crate::CodecRefusal;
use crate::reader::Reader;

pub(crate) fn read_byte(r: &mut Reader<'_>) -> Result<u8, CodecRefusal>
    ensures { Gives byte.read r.old r.new result }
{
    match r.left {
        [] => Err(CodecRefusal::Short(r.whole)),
        [byte, rest @ ..] => {
            r.left = rest;
            Ok(*byte)
        }
    }
}

pub(crate) fn read_u16(r: &mut Reader<'_>) -> Result<u16, CodecRefusal>
    ensures { Gives (number w16 (2 ^ 16)).read r.old r.new result }
{
    if r.left.len() < 2 {
        return Err(CodecRefusal::Short(r.whole));
    }
    let (front, rest) = r.left.split_at(2);
    r.left = rest;
    Ok(u16::from_le_bytes([front[0], front[1]]))
}

pub(crate) fn read_u32(r: &mut Reader<'_>) -> Result<u32, CodecRefusal>
    ensures { Gives (number w32 (2 ^ 32)).read r.old r.new result }
{
    if r.left.len() < 4 {
        return Err(CodecRefusal::Short(r.whole));
    }
    let (front, rest) = r.left.split_at(4);
    r.left = rest;
    Ok(u32::from_le_bytes([front[0], front[1], front[2], front[3]]))
}

pub(crate) fn read_u64(r: &mut Reader<'_>) -> Result<u64, CodecRefusal>
    ensures { Gives (number w64 (2 ^ 64)).read r.old r.new result }
{
    if r.left.len() < 8 {
        return Err(CodecRefusal::Short(r.whole));
    }
    let (front, rest) = r.left.split_at(8);
    r.left = rest;
    Ok(u64::from_le_bytes([
        front[0], front[1], front[2], front[3], front[4], front[5], front[6], front[7],
    ]))
}
