// Whether the runs of module entries are runs of the header's tables of imports, and have no import in common.
ghost use Rattle.std.specs.Prelude.{◌≡◌, ◌+◌, ◌*◌, ◌≤◌};
ghost use Rattle.writer_spec.specs.All.{all_below};
ghost use Rattle.writer_spec.specs.Description.{file_of, table_at};
ghost use Rattle.writer.specs.Runs.{run_at, imports_of};
ghost use Rattle.writer_spec.specs.Runs.{anonymous_run, run_pointer, run_length, is_run, runs_inside, runs_meet_not, runs_apart, runs_good};

use crate::bytes::{ANONYMOUS_IMPORTS, EntryTable, INDEXED_IMPORTS, MODULE_ENTRIES};

// Which of a module entry's two runs.
#[derive(Clone, Copy)]
pub(crate) enum Run {
    Indexed,
    Anonymous,
}

impl Run {
    // Where a module entry has its pointer; its count is the next word.
    pub(crate) fn offset(self) -> u32
        ensures place { result ≡ run_at self }
        ensures small { result ≤ anonymous_run }
    {
        match self {
            Run::Indexed => 4,
            Run::Anonymous => 12,
        }
    }

    // The table of imports whose entries it has.
    pub(crate) fn imports(self) -> EntryTable
        ensures { table_at result.field result.width ≡ imports_of self }
    {
        match self {
            Run::Indexed => INDEXED_IMPORTS,
            Run::Anonymous => ANONYMOUS_IMPORTS,
        }
    }

    // The pointer of module entry j's run. It is put in line, and its length too: `asked` looks at each module entry for each byte of an
    // import, and took twice the time when this was a call.
    #[inline(always)]
    #[tactic(auto, unfolding(writer_spec::specs::Runs::run_pointer))]
    pub(crate) fn pointer(self, bytes: &[u8], j: u32) -> u32
        ensures { result ≡ run_pointer (file_of bytes.now) (run_at self) j }
    {
        MODULE_ENTRIES.entry_word(bytes, j, self.offset())
    }

    // And its length.
    #[inline(always)]
    #[tactic(auto, unfolding(writer_spec::specs::Runs::run_length))]
    pub(crate) fn length(self, bytes: &[u8], j: u32) -> u32
        ensures { result ≡ run_length (file_of bytes.now) (run_at self) j }
    {
        MODULE_ENTRIES.entry_word(bytes, j, self.offset() + 4)
    }
}

// Entries of a table, one after another: where the first stands, and how many they are.
#[derive(Clone, Copy)]
pub(crate) struct Entries {
    pub(crate) pointer: u32,
    pub(crate) length: u32,
}

// The run of module entry j.
#[inline(always)]
fn run_of(bytes: &[u8], run: Run, j: u32) -> Entries
    ensures pointer { result.pointer ≡ run_pointer (file_of bytes.now) (run_at run) j }
    ensures length { result.length ≡ run_length (file_of bytes.now) (run_at run) j }
{
    Entries {
        pointer: run.pointer(bytes, j),
        length: run.length(bytes, j),
    }
}

// Whether these are entries of a table with 8 bytes an entry.
#[tactic(auto, unfolding(writer_spec::specs::Runs::is_run))]
fn is_run(bytes: &[u8], table: EntryTable, run: Entries) -> bool
    ensures { result ≡ is_run (file_of bytes.now) (table_at table.field table.width) run.pointer run.length }
{
    let start = table.start(bytes);
    run.length == 0
        || start <= run.pointer
            && (run.pointer - start) % 8 == 0
            && (((run.pointer - start) / 8) as usize) + (run.length as usize)
                <= (table.count(bytes) as usize)
}

// Whether each module entry's run is a run of its table.
fn runs_inside(bytes: &[u8], run: Run) -> bool
    ensures { result ≡ runs_inside (file_of bytes.now) (imports_of run) (run_at run) }
{
    (0..MODULE_ENTRIES.count(bytes)).all(|j| is_run(bytes, run.imports(), run_of(bytes, run, j)))
}

// Where the entries of a run end.
fn end_of(run: Entries) -> usize
    ensures { result ≡ run.pointer + 8 * run.length }
{
    (run.pointer as usize) + 8 * (run.length as usize)
}

// Whether two runs have no entry in common.
#[tactic(auto, unfolding(writer_spec::specs::Runs::runs_meet_not))]
fn runs_meet_not(a: Entries, b: Entries) -> bool
    ensures { result ≡ runs_meet_not a.pointer a.length b.pointer b.length }
{
    a.length == 0
        || b.length == 0
        || end_of(a) <= (b.pointer as usize)
        || end_of(b) <= (a.pointer as usize)
}

// Whether these entries meet none of the first j entries' runs.
fn run_meets_none(bytes: &[u8], run: Run, j: u32, entries: Entries) -> bool
    ensures { result ≡ all_below j (λ i. runs_meet_not (run_pointer (file_of bytes.now) (run_at run) i) (run_length (file_of bytes.now) (run_at run) i) entries.pointer entries.length) }
{
    (0..j).all(|i| runs_meet_not(run_of(bytes, run, i), entries))
}

// Whether no two runs at `run` have an entry in common. One that starts past the end of all before it meets none of them.
fn runs_apart(bytes: &[u8], run: Run) -> bool
    ensures { result ≡ runs_apart (file_of bytes.now) (run_at run) }
{
    let mut end = 0;
    for j in 0..MODULE_ENTRIES.count(bytes) {
        let entries = run_of(bytes, run, j);
        if entries.length != 0 {
            if (entries.pointer as usize) < end && !run_meets_none(bytes, run, j, entries) {
                return false;
            }
            end = end.max(end_of(entries));
        }
    }
    true
}

// Whether all runs are as a well-laid image has them.
#[tactic(auto, unfolding(writer_spec::specs::Runs::runs_good))]
pub fn runs_good(bytes: &[u8]) -> bool
    ensures { result ≡ runs_good (file_of bytes.now) }
{
    runs_inside(bytes, Run::Indexed)
        && runs_inside(bytes, Run::Anonymous)
        && runs_apart(bytes, Run::Indexed)
        && runs_apart(bytes, Run::Anonymous)
}
