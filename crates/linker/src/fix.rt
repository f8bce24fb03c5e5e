// Fixing: the tables that a level says the module no longer needs are dropped, so that the title can take back their memory.
ghost use Rattle.std.specs.Prelude.{◌≡◌, ◌-◌, ◌<◌, min, max};
ghost use Rattle.window.specs.Trace.{run_t};
ghost use Rattle.window.specs.Loop.{loop};
ghost use Rattle.linker_spec.specs.Fix.{align_up, fixed_to, fix_pair, end_tables, fix_from, fix};

use layout::fields::{entry_address, field, set_field};
use layout::header::{
    CODE_OFFSET, CODE_SIZE, EXPORT_NAMED_SYMBOL_TABLE_OFFSET, FIXED_SIZE,
    IMPORT_MODULE_TABLE_OFFSET, MODULE_NAME_OFFSET, SIZE, STATIC_ANONYMOUS_SYMBOL_TABLE_OFFSET,
};
use layout::tables::table_entry_size;

// a less b, not below 0.
fn saturating_sub(a: u32, b: u32) -> u32
    ensures { result ≡ a - b }
{
    if a < b {
        return 0;
    }
    a - b
}

fn min(a: u32, b: u32) -> u32
    ensures { result ≡ min a b }
{
    if a <= b {
        return a;
    }
    b
}

fn max(a: u32, b: u32) -> u32
    ensures { result ≡ max a b }
{
    if a <= b {
        return b;
    }
    a
}

// Rounds up to 4,096, wrapping to 0 past 2^32.
fn align_up(n: u32) -> u32
    ensures { result ≡ align_up n }
{
    (((n as u64) + 4095) / 4096 * 4096 % 0x1_0000_0000) as u32
}

// How much of a module is left whose greatest end is `end`.
fn fixed_to(end: u32, base: u32, size: u32) -> u32
    ensures { result ≡ fixed_to end base size }
{
    min(align_up(saturating_sub(end, base)), size)
}

// One of the 15 pairs of table and count: before the barrier it counts for the end, from there on it is emptied.
fn fix_pair(
    at: u32,
    w: &mut [u8],
    trace: &mut [u8],
    base: u32,
    barrier: u32,
    i: u32,
    end: u32,
) -> u32
    requires { i < 15 }
    ensures { (result, (w.new, trace.new)) ≡ run_t at (fix_pair base barrier i end) (w.old, trace.old) }
{
    let x = MODULE_NAME_OFFSET + 8 * i;
    let table = field(at, w, trace, base, x);
    let count = field(at, w, trace, base, x + 4);
    if x >= barrier {
        set_field(at, w, trace, base, x + 4, 0);
        return end;
    }
    if count == 0 {
        return end;
    }
    max(end, entry_address(table, count, table_entry_size(i)))
}

fn fix_pairs(at: u32, w: &mut [u8], trace: &mut [u8], base: u32, barrier: u32, end: u32) -> u32
    ensures { (result, (w.new, trace.new)) ≡ run_t at (loop (fix_pair base barrier) 0 15 end) (w.old, trace.old) }
{
    let mut last = end;
    for i in 0u32..15 {
        last = fix_pair(at, w, trace, base, barrier, i, last);
    }
    last
}

// The dropped tables point where the module now ends.
fn end_tables(at: u32, w: &mut [u8], trace: &mut [u8], base: u32, barrier: u32, end: u32)
    ensures { (w.new, trace.new) ≡ (run_t at (end_tables base barrier end) (w.old, trace.old)).1 }
{
    let count = saturating_sub(SIZE, barrier) / 8;
    for i in 0..count {
        set_field(at, w, trace, base, barrier + 8 * i, end);
    }
}

fn fix_from(at: u32, w: &mut [u8], trace: &mut [u8], base: u32, size: u32, barrier: u32) -> u32
    ensures { (result, (w.new, trace.new)) ≡ run_t at (fix_from base size barrier) (w.old, trace.old) }
{
    let code = field(at, w, trace, base, CODE_OFFSET);
    let bytes = field(at, w, trace, base, CODE_SIZE);
    let end = fix_pairs(
        at,
        w,
        trace,
        base,
        barrier,
        std::num::wrapping_add_u32(code, bytes),
    );
    let fixed = fixed_to(end, base, size);
    end_tables(
        at,
        w,
        trace,
        base,
        barrier,
        std::num::wrapping_add_u32(base, fixed),
    );
    set_field(at, w, trace, base, FIXED_SIZE, fixed);
    fixed
}

// Drops the tables that a level of 1, 2 or 3 says, and gives how much of the module is left; 0 at any other level.
pub(crate) fn fix(
    at: u32,
    w: &mut [u8],
    trace: &mut [u8],
    base: u32,
    size: u32,
    fix_level: u32,
) -> u32
    ensures { (result, (w.new, trace.new)) ≡ run_t at (fix base size fix_level) (w.old, trace.old) }
{
    if fix_level == 1 {
        return fix_from(
            at,
            w,
            trace,
            base,
            size,
            STATIC_ANONYMOUS_SYMBOL_TABLE_OFFSET,
        );
    }
    if fix_level == 2 {
        return fix_from(at, w, trace, base, size, IMPORT_MODULE_TABLE_OFFSET);
    }
    if fix_level == 3 {
        return fix_from(at, w, trace, base, size, EXPORT_NAMED_SYMBOL_TABLE_OFFSET);
    }
    0
}
