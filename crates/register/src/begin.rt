// The first words of a new record, and its name, after the last record.
ghost use Rattle.std.specs.Prelude.{◌≡◌, ◌+◌, ◌≤◌, [], ◌∷◌, length};
ghost use Rattle.std.proofs.lemmas.List.Edits.{sets};
ghost use Rattle.register.specs.Words.{flat};
ghost use Rattle.register.specs.Encode.{flag};
ghost use Rattle.register.specs.Append.Draft.{begin_record};

use crate::append::bytes;
use crate::append::draft::Draft;
use crate::words;

fn flag_word(set: bool) -> u32
    ensures { result ≡ flag set }
{
    if set {
        return 1;
    }
    0
}

// Writes the first eight words of a record that has a name and nothing else yet.
fn write_first(
    records: &mut [u8],
    start: usize,
    base: u32,
    size: u32,
    auto_link: u32,
    offset: u32,
    count: u32,
)
    requires { start + 32 ≤ length records.old }
    ensures { records.new
        ≡ sets records.old start (flat (base ∷ size ∷ auto_link ∷ offset ∷ count ∷ 0 ∷ 0 ∷ 0 ∷ [])) }
{
    window::store32(records, start, base);
    window::store32(records, start + 4, size);
    window::store32(records, start + 8, auto_link);
    window::store32(records, start + 12, offset);
    window::store32(records, start + 16, count);
    window::store32(records, start + 20, 0);
    window::store32(records, start + 24, 0);
    window::store32(records, start + 28, 0);
}

// Begins a record after the last one, unless 64 stand or its first words or its name have no room.
pub fn begin_record(
    records: &mut [u8],
    names: &mut [u8],
    base: u32,
    size: u32,
    auto_link: bool,
    name: &[u8],
) -> Option<Draft>
    ensures { (result, records.new, names.new)
        ≡ begin_record records.old names.old base size auto_link name.now }
{
    if 64 <= words::word(records, 0) {
        return None;
    }
    let start = words::used_bytes(records) as usize;
    let last = words::word(records, 4);
    let from = last as usize;
    let count = name.len();
    if bytes::room(records.len()) < start + 32 {
        return None;
    }
    if bytes::room(names.len()) < from + count {
        return None;
    }
    write_first(
        records,
        start,
        base,
        size,
        flag_word(auto_link),
        last,
        count as u32,
    );
    bytes::copy_into(names, from, name);
    Some(Draft {
        start,
        end: start + 32,
        names: from,
        last: from + count,
    })
}
