// The missing list: 64 slots, each of a 16-bit length and 512 bytes.
ghost use Rattle.std.specs.Prelude.{◌≡◌, ◌+◌, ◌≤◌, length};
ghost use Rattle.register.specs.Change.Bytes.{put_slot, takes_name, push_missing};

use crate::append::bytes;

// Writes a name's length and bytes from `place` on.
fn put_slot(missing: &mut [u8], place: usize, name: &[u8])
    requires { (place + 514 ≤ length missing.old) × (length name.now ≤ 512) }
    ensures { missing.new ≡ put_slot missing.old place name.now }
{
    missing[place] = (name.len() % 256) as u8;
    missing[place + 1] = (name.len() / 256) as u8;
    bytes::copy_into(missing, place + 2, name);
}

// Whether the buffers are long enough and the name short enough for a missing name.
fn takes_name(records: usize, missing: usize, count: usize) -> bool
    ensures { result ≡ takes_name records missing count }
{
    if records < 32 {
        return false;
    }
    if missing != 32896 {
        return false;
    }
    count <= 512
}

// Adds a missing name; past 64 of them, and in buffers that are no register, nothing changes.
pub fn push_missing(records: &mut [u8], missing: &mut [u8], name: &[u8])
    ensures { (records.new, missing.new)
        ≡ push_missing records.old missing.old name.now }
{
    if !takes_name(records.len(), missing.len(), name.len()) {
        return;
    }
    let count = window::load32(records, 20);
    if 64 <= count {
        return;
    }
    put_slot(missing, 514 * (count as usize), name);
    window::store32(records, 20, count + 1);
}
