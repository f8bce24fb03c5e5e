// Whether each import has a batch of its own.
ghost use Rattle.std.specs.Prelude.{◌≡◌, ◌≤◌, ◌<◌, not, eqb};
ghost use Rattle.linker_spec.specs.Relocation.{batch_limit};
ghost use Rattle.history.specs.Image.{end_mark};
ghost use Rattle.writer_spec.specs.All.{all_below};
ghost use Rattle.writer_spec.specs.Description.{file_of, table_at};
ghost use Rattle.writer_spec.specs.Batches.{batch_ends, batch_begins, is_batch, batch_of, batches_in, import_count, import_batch, batches_apart, batches_good};

use crate::bytes;
use crate::bytes::{ANONYMOUS_IMPORTS, EXTERNALS, EntryTable, INDEXED_IMPORTS, NAMED_IMPORTS};

// A batch has at most 4,097 entries.
const BATCH_LIMIT: u32 = 0x1001;

// The end mark of entry e of the external table.
#[tactic(auto, unfolding(history::specs::Image::end_mark))]
fn end_mark(bytes: &[u8], e: u32) -> u8
    ensures { result ≡ end_mark (file_of bytes.now) e }
{
    bytes::byte(bytes, EXTERNALS.entry(bytes, e) + 5)
}

// Whether one of 4,097 entries from `first` on, all of them in the table, has an end mark.
fn batch_ends(bytes: &[u8], first: u32) -> bool
    ensures { result ≡ batch_ends (file_of bytes.now) batch_limit first }
{
    let end = EXTERNALS
        .count(bytes)
        .min(first.saturating_add(BATCH_LIMIT));
    (first..end).any(|e| end_mark(bytes, e) != 0)
}

// Whether a batch can begin at entry e: it is the first, or right after an end mark.
#[tactic(auto, unfolding(writer_spec::specs::Batches::batch_begins))]
fn batch_begins(bytes: &[u8], e: u32) -> bool
    ensures { result ≡ batch_begins (file_of bytes.now) e }
{
    e == 0 || end_mark(bytes, e - 1) != 0
}

// Whether a batch stands at offset `batch`.
#[tactic(auto, unfolding(writer_spec::specs::Batches::is_batch, writer_spec::specs::Batches::batch_entry))]
fn is_batch(bytes: &[u8], batch: u32) -> bool
    ensures { result ≡ is_batch (file_of bytes.now) batch }
{
    let start = EXTERNALS.start(bytes);
    batch != 0
        && start <= batch
        && (batch - start) % 12 == 0
        && batch_begins(bytes, (batch - start) / 12)
        && batch_ends(bytes, (batch - start) / 12)
}

// The batch of entry i of a table of imports.
#[tactic(auto, unfolding(writer_spec::specs::Batches::batch_of))]
fn batch_of(bytes: &[u8], table: EntryTable, i: u32) -> u32
    ensures { result ≡ batch_of (file_of bytes.now) (table_at table.field table.width) i }
{
    table.entry_word(bytes, i, 4)
}

// Whether each entry of a table of imports has a batch.
fn batches_in(bytes: &[u8], table: EntryTable) -> bool
    ensures { result ≡ batches_in (file_of bytes.now) (table_at table.field table.width) }
{
    (0..table.count(bytes)).all(|i| is_batch(bytes, batch_of(bytes, table, i)))
}

// How many imports the three tables have.
#[tactic(auto, unfolding(writer_spec::specs::Batches::import_count))]
fn import_count(bytes: &[u8]) -> usize
    ensures { result ≡ import_count (file_of bytes.now) }
{
    (NAMED_IMPORTS.count(bytes) as usize)
        + ((INDEXED_IMPORTS.count(bytes) as usize) + (ANONYMOUS_IMPORTS.count(bytes) as usize))
}

// The batch of import i of the three tables, one after another.
#[tactic(auto, unfolding(writer_spec::specs::Batches::import_batch, writer_spec::specs::Batches::import_count))]
fn import_batch(bytes: &[u8], i: usize) -> u32
    requires { i < import_count (file_of bytes.now) }
    ensures { result ≡ import_batch (file_of bytes.now) i }
{
    let named = NAMED_IMPORTS.count(bytes) as usize;
    if i < named {
        return batch_of(bytes, NAMED_IMPORTS, i as u32);
    }
    let indexed = INDEXED_IMPORTS.count(bytes) as usize;
    if i < named + indexed {
        return batch_of(bytes, INDEXED_IMPORTS, (i - named) as u32);
    }
    batch_of(bytes, ANONYMOUS_IMPORTS, (i - (named + indexed)) as u32)
}

// Whether `batch` is none of the first k imports' batches.
fn batch_is_new(bytes: &[u8], k: usize, batch: u32) -> bool
    requires { k ≤ import_count (file_of bytes.now) }
    ensures { result ≡ all_below k (λ i. not (eqb (import_batch (file_of bytes.now) i) batch)) }
{
    (0..k).all(|i| import_batch(bytes, i) != batch)
}

// Whether no two imports have one batch. A batch past all before it is a new one.
fn batches_apart(bytes: &[u8]) -> bool
    ensures { result ≡ batches_apart (file_of bytes.now) }
{
    let mut end = 0;
    for k in 0..import_count(bytes) {
        let batch = import_batch(bytes, k);
        if (batch as usize) < end && !batch_is_new(bytes, k, batch) {
            return false;
        }
        end = end.max((batch as usize) + 1);
    }
    true
}

// Whether all batches are as a well-laid image has them.
#[tactic(auto, unfolding(writer_spec::specs::Batches::batches_good))]
pub fn batches_good(bytes: &[u8]) -> bool
    ensures { result ≡ batches_good (file_of bytes.now) }
{
    batches_in(bytes, NAMED_IMPORTS)
        && batches_in(bytes, INDEXED_IMPORTS)
        && batches_in(bytes, ANONYMOUS_IMPORTS)
        && batches_apart(bytes)
}
