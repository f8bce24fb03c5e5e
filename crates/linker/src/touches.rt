// The accesses that a module's record takes, in the Rust's order: exports, all segments, the name. What they read is dropped;
// the record itself is made in an order of its own. They only read, so a loop ends with the first touch that is kept.
ghost use Rattle.std.specs.Prelude.{◌≡◌, ℕ, Bool, List};
ghost use Rattle.window.specs.Trace.{run_t};
ghost use Rattle.register.specs.Module.{Export};
ghost use Rattle.linker_spec.specs.Exports.{named_export, named_exports, indexed_export, indexed_exports, read_segments, read_module};

use layout::fields::{entry_address, field};
use layout::format::{
    EXPORT_INDEXED_SYMBOL_ENTRY_SIZE, EXPORT_NAMED_SYMBOL_ENTRY_SIZE, SegmentTag,
};
use layout::{header, segments};

// One named export: its name, then its tag.
fn touch_named_export(at: u32, w: &[u8], trace: &mut [u8], base: u32, entry: u32)
    ensures { (xs : List Export) → (w.now, trace.new) ≡ (run_t at (named_export base entry xs) (w.now, trace.old)).1 }
{
    let place = window::read32(at, w, trace, entry);
    window::name::touch_name(at, w, trace, place);
    let tag = window::read32(at, w, trace, std::num::wrapping_add_u32(entry, 4));
    segments::tag_to_address(at, w, trace, base, SegmentTag(tag));
}

fn touch_named(at: u32, w: &[u8], trace: &mut [u8], base: u32)
    ensures { (w.now, trace.new) ≡ (run_t at (named_exports base) (w.now, trace.old)).1 }
{
    let table = field(at, w, trace, base, header::EXPORT_NAMED_SYMBOL_TABLE_OFFSET);
    let count = field(at, w, trace, base, header::EXPORT_NAMED_SYMBOL_NUM);
    for i in 0..count {
        if window::said(trace) {
            return;
        }
        let entry = entry_address(table, i, EXPORT_NAMED_SYMBOL_ENTRY_SIZE);
        touch_named_export(at, w, trace, base, entry);
    }
}

fn touch_indexed_export(at: u32, w: &[u8], trace: &mut [u8], base: u32, entry: u32)
    ensures { (xs : List ℕ) → (w.now, trace.new) ≡ (run_t at (indexed_export base entry xs) (w.now, trace.old)).1 }
{
    let tag = window::read32(at, w, trace, entry);
    segments::tag_to_address(at, w, trace, base, SegmentTag(tag));
}

fn touch_indexed(at: u32, w: &[u8], trace: &mut [u8], base: u32)
    ensures { (w.now, trace.new) ≡ (run_t at (indexed_exports base) (w.now, trace.old)).1 }
{
    let table = field(
        at,
        w,
        trace,
        base,
        header::EXPORT_INDEXED_SYMBOL_TABLE_OFFSET,
    );
    let count = field(at, w, trace, base, header::EXPORT_INDEXED_SYMBOL_NUM);
    for i in 0..count {
        if window::said(trace) {
            return;
        }
        let entry = entry_address(table, i, EXPORT_INDEXED_SYMBOL_ENTRY_SIZE);
        touch_indexed_export(at, w, trace, base, entry);
    }
}

// All segments are looked up, though a record keeps only 16.
fn touch_segments(at: u32, w: &[u8], trace: &mut [u8], base: u32)
    ensures { (w.now, trace.new) ≡ (run_t at (read_segments base) (w.now, trace.old)).1 }
{
    let count = field(at, w, trace, base, header::SEGMENT_NUM);
    for index in 0..count {
        if window::said(trace) {
            return;
        }
        segments::segment(at, w, trace, base, index);
    }
}

// Makes the accesses of the record of the module at base.
pub(crate) fn touch_module(at: u32, w: &[u8], trace: &mut [u8], base: u32)
    ensures { (size : ℕ) (auto : Bool) → (w.now, trace.new) ≡ (run_t at (read_module base size auto) (w.now, trace.old)).1 }
{
    touch_named(at, w, trace, base);
    touch_indexed(at, w, trace, base);
    touch_segments(at, w, trace, base);
    let own = field(at, w, trace, base, header::MODULE_NAME_OFFSET);
    window::name::touch_name(at, w, trace, own);
}
