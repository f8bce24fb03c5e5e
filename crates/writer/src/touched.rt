// Whether a relocated word meets anything else that the linker reads or writes.
ghost use Rattle.std.specs.Prelude.{◌≡◌, ◌^◌, ◌≤◌, ◌<◌};
ghost use Rattle.writer_spec.specs.Description.{file_of, table_at};
ghost use Rattle.writer_spec.specs.Words.{in_table, in_run, asked, import_byte, long_before, string_byte, in_whole_table, touched_byte, word_off, words_off};
ghost use Rattle.writer_spec.specs.declared.words.WordPlace.TheVariants.{InImage};
ghost use Rattle.writer.specs.Runs.{run_at, imports_of};
ghost use Rattle.writer.specs.Touched.{in_import_tables, in_strings, read_in_part, word_touched};

use crate::bytes::{
    EXTERNALS, EntryTable, INDEXED_EXPORTS, INTERNALS, MODULE_ENTRIES, NAMED_EXPORTS,
    NAMED_IMPORTS, SEGMENTS,
};
use crate::runs::Run;
use crate::words::Words;
use crate::{bytes, words};
use layout::header;
use writer_spec::words::{Room, WordPlace};

// Whether offset o lies in a table.
#[tactic(auto, unfolding(writer_spec::specs::Words::in_table, history::specs::Image::entry))]
fn in_table(bytes: &[u8], table: EntryTable, o: usize) -> bool
    ensures { result ≡ in_table (file_of bytes.now) (table_at table.field table.width) o }
{
    table.entry(bytes, 0) <= o && o < table.entry(bytes, table.count(bytes))
}

// Whether the import whose entry stands at o is in the run of module entry j.
#[tactic(auto, unfolding(writer_spec::specs::Words::in_run))]
fn in_run(bytes: &[u8], run: Run, j: u32, o: usize) -> bool
    ensures { result ≡ in_run (file_of bytes.now) (run_at run) j o }
{
    let pointer = run.pointer(bytes, j) as usize;
    pointer <= o && (o - pointer) % 8 == 0 && (o - pointer) / 8 < (run.length(bytes, j) as usize)
}

// Whether it is in the run of any.
fn asked(bytes: &[u8], run: Run, o: usize) -> bool
    ensures { result ≡ asked (file_of bytes.now) (run_at run) o }
{
    (0..MODULE_ENTRIES.count(bytes)).any(|j| in_run(bytes, run, j, o))
}

// Whether o is a byte of an indexed or anonymous import that is read: its batch, or, in a run, what it asks for.
#[tactic(auto, unfolding(writer_spec::specs::Words::import_byte, writer_spec::specs::Words::in_table))]
fn import_byte(bytes: &[u8], run: Run, o: usize) -> bool
    ensures { result ≡ import_byte (file_of bytes.now) (imports_of run) (run_at run) o }
{
    let start = run.imports().start(bytes) as usize;
    in_table(bytes, run.imports(), o)
        && (4 <= (o - start) % 8 || asked(bytes, run, start + (o - start) / 8 * 8))
}

// Whether none of the 512 bytes before o is 0.
fn long_before(bytes: &[u8], o: usize) -> bool
    requires { 512 ≤ o }
    ensures { result ≡ long_before (file_of bytes.now) o 512 }
{
    (0..512).all(|i| bytes::byte(bytes, o - (i + 1)) != 0)
}

// Whether o is a byte of the string area whose offset stands at `field` that is read: all but the zero after a name of 512 bytes.
#[tactic(auto, unfolding(writer_spec::specs::Words::string_byte))]
fn string_byte(bytes: &[u8], field: u32, o: usize) -> bool
    ensures { result ≡ string_byte (file_of bytes.now) field o }
{
    let start = bytes::word(bytes, field as usize) as usize;
    start <= o
        && o < start + (bytes::count(bytes, field) as usize)
        && (bytes::byte(bytes, o) != 0 || o < start + 512 || !long_before(bytes, o))
}

// Whether o is a byte of a table of imports or relocations that is read whole.
fn in_import_tables(bytes: &[u8], o: usize) -> bool
    ensures { result ≡ in_import_tables (file_of bytes.now) o }
{
    in_table(bytes, MODULE_ENTRIES, o)
        || in_table(bytes, EXTERNALS, o)
        || in_table(bytes, NAMED_IMPORTS, o)
        || in_table(bytes, INTERNALS, o)
}

// Whether o is a byte of a table that is read whole.
#[tactic(auto, unfolding(writer_spec::specs::Words::in_whole_table))]
fn in_whole_table(bytes: &[u8], o: usize) -> bool
    ensures { result ≡ in_whole_table (file_of bytes.now) o }
{
    in_table(bytes, SEGMENTS, o)
        || in_table(bytes, NAMED_EXPORTS, o)
        || in_table(bytes, INDEXED_EXPORTS, o)
        || in_import_tables(bytes, o)
}

// Whether o is a byte of a string that is read.
fn in_strings(bytes: &[u8], o: usize) -> bool
    ensures { result ≡ in_strings (file_of bytes.now) o }
{
    string_byte(bytes, header::MODULE_NAME_OFFSET, o)
        || string_byte(bytes, header::EXPORT_STRINGS_OFFSET, o)
        || string_byte(bytes, header::IMPORT_STRINGS_OFFSET, o)
}

// Whether o is a byte that is read of what is not read whole: the imports by module, and the strings.
fn read_in_part(bytes: &[u8], o: usize) -> bool
    ensures { result ≡ read_in_part (file_of bytes.now) o }
{
    import_byte(bytes, Run::Indexed, o)
        || import_byte(bytes, Run::Anonymous, o)
        || in_strings(bytes, o)
}

// Whether the linker reads or writes the byte at o.
#[tactic(auto, unfolding(writer_spec::specs::Words::touched_byte))]
fn touched_byte(bytes: &[u8], o: usize) -> bool
    ensures { result ≡ touched_byte (file_of bytes.now) o }
{
    o < (header::SIZE as usize) || in_whole_table(bytes, o) || read_in_part(bytes, o)
}

// Whether it does so with one of the four bytes from c on.
fn word_touched(bytes: &[u8], c: usize) -> bool
    requires { c ≤ 2 ^ 32 }
    ensures { result ≡ word_touched (file_of bytes.now) c }
{
    touched_byte(bytes, c)
        || touched_byte(bytes, c + 1)
        || touched_byte(bytes, c + 2)
        || touched_byte(bytes, c + 3)
}

// Whether the word at offset c meets none of those; before the first string area are segments' bytes only.
#[tactic(auto, unfolding(writer_spec::specs::Words::word_off))]
fn image_word_off(bytes: &[u8], room: Room, c: usize) -> bool
    ensures { result ≡ word_off (file_of bytes.now) room (InImage c) }
{
    let strings = bytes::word(bytes, header::MODULE_NAME_OFFSET as usize) as usize;
    words::ends_by(c, strings) || (room.size as usize) < c || !word_touched(bytes, c)
}

// Whether a word meets none of those, as one outside the image does not.
#[tactic(auto, unfolding(writer_spec::specs::Words::word_off))]
fn word_off(bytes: &[u8], room: Room, word: WordPlace) -> bool
    ensures { result ≡ word_off (file_of bytes.now) room word }
{
    match word {
        WordPlace::InImage(c) => image_word_off(bytes, room, c),
        WordPlace::InData(_) | WordPlace::InBss(_) | WordPlace::Nowhere => true,
    }
}

// Whether no relocated word meets any.
pub(crate) fn words_off(words: &Words) -> bool
    ensures { result ≡ words_off (file_of words.now.bytes.now) words.now.kinds.now words.now.room }
{
    (0..words.count()).all(|i| word_off(words.bytes, words.room, words.get(i)))
}
