// Whether the string areas hold the names, one right after another in their entries' order.
ghost use Rattle.std.specs.Prelude.{◌≡◌, ◌+◌, ◌++◌};
ghost use Rattle.layout.specs.Header.{import_strings_offset};
ghost use Rattle.history.specs.Image.{module_entries, named_imports};
ghost use Rattle.window.specs.Mirror.{word};
ghost use Rattle.writer_spec.specs.Description.{file_of, table_at, name_room, nonzeros, string_after, strings_from, pointers_of, ends_at, named};

use crate::bytes;
use crate::bytes::{EntryTable, MODULE_ENTRIES, NAMED_EXPORTS, NAMED_IMPORTS};
use layout::header;

// A name of at most 512 bytes and its zero.
const NAME_ROOM: usize = 513;

// How many bytes from `p` on are not 0, up to the first that is, and at most 513.
fn name_length(bytes: &[u8], p: u32) -> usize
    ensures { result ≡ nonzeros (file_of bytes.now) name_room p }
{
    for n in 0..NAME_ROOM {
        if bytes::byte(bytes, (p as usize) + n) == 0 {
            return n;
        }
    }
    NAME_ROOM
}

// The position after the string of the pointer `p`, if it starts at `pos` and is a name.
fn string_after(bytes: &[u8], pos: usize, p: u32) -> Option<usize>
    ensures { result ≡ string_after (file_of bytes.now) pos p }
{
    if (p as usize) != pos {
        return None;
    }
    let n = name_length(bytes, p);
    if n < NAME_ROOM {
        return Some(pos + (n + 1));
    }
    None
}

// The position after the strings of a table's entries, the first of which is at `start`.
fn strings_after(bytes: &[u8], start: usize, table: EntryTable) -> Option<usize>
    ensures { result ≡ strings_from (file_of bytes.now) start (pointers_of (file_of bytes.now) (table_at table.field table.width)) }
{
    let mut pos = start;
    for i in 0..table.count(bytes) {
        pos = string_after(bytes, pos, table.entry_word(bytes, i, 0))?;
    }
    Some(pos)
}

// Whether that position is the end of the string area whose offset stands at `field`.
fn ends_area(bytes: &[u8], reached: Option<usize>, field: u32) -> bool
    ensures { result ≡ ends_at reached (word (file_of bytes.now) field + word (file_of bytes.now) (field + 4)) }
{
    let end = (bytes::word(bytes, field as usize) as usize) + (bytes::count(bytes, field) as usize);
    reached == Some(end)
}

// The position after the names of module entries and then of named imports.
#[tactic(auto, using(crate::proofs::strings::Laws::strings_append))]
fn import_strings_after(bytes: &[u8]) -> Option<usize>
    ensures { result ≡ strings_from (file_of bytes.now) (word (file_of bytes.now) import_strings_offset) (pointers_of (file_of bytes.now) module_entries ++ pointers_of (file_of bytes.now) named_imports) }
{
    let start = bytes::word(bytes, header::IMPORT_STRINGS_OFFSET as usize) as usize;
    let pos = strings_after(bytes, start, MODULE_ENTRIES)?;
    strings_after(bytes, pos, NAMED_IMPORTS)
}

// Whether the three string areas are packed with names.
#[tactic(auto, unfolding(writer_spec::specs::Description::named, writer_spec::specs::Description::names_packed))]
pub fn named(bytes: &[u8]) -> bool
    ensures { result ≡ named bytes.now }
{
    let name = bytes::word(bytes, header::MODULE_NAME_OFFSET as usize);
    let exports = bytes::word(bytes, header::EXPORT_STRINGS_OFFSET as usize) as usize;
    ends_area(
        bytes,
        string_after(bytes, name as usize, name),
        header::MODULE_NAME_OFFSET,
    ) && ends_area(
        bytes,
        strings_after(bytes, exports, NAMED_EXPORTS),
        header::EXPORT_STRINGS_OFFSET,
    ) && ends_area(
        bytes,
        import_strings_after(bytes),
        header::IMPORT_STRINGS_OFFSET,
    )
}
