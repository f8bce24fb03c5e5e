// The single steps of a module's new record: what its image has at one place, and a step on the record kept or given up.
ghost use Rattle.std.specs.Prelude.{◌≡◌};
ghost use Rattle.window.specs.Memory.{word_at};
ghost use Rattle.window.specs.Access.{run};
ghost use Rattle.layout.specs.Segments.{tag_to_address};
ghost use Rattle.register.specs.Append.Draft.{begin_record};
ghost use Rattle.linker_spec.specs.Relocation.{address_or0};
ghost use Rattle.linker.specs.Record.Read.{segment_of, at_most16, own_name};
ghost use Rattle.linker.specs.Record.Tried.{tried};

use layout::format::SegmentTag;
use layout::{header, peek};
use register::append::draft;
use register::append::draft::Draft;

// The draft that a step gives; where the step had no room the record is given up.
pub(crate) fn keep_or_give_up(
    records: &mut [u8],
    names: &mut [u8],
    before: Draft,
    after: Option<Draft>,
) -> Option<Draft>
    ensures { (result, records.new, names.new) ≡ tried before after records.old names.old }
{
    match after {
        None => {
            draft::give_up(records, names, before);
            None
        }
        Some(next) => Some(next),
    }
}

// The address of segment i, 0 where there is none.
pub(crate) fn segment_offset(at: u32, w: &[u8], base: u32, i: u32) -> u32
    ensures { result ≡ segment_of at w.now base i }
{
    match peek::segment(at, w, base, i) {
        Some(entry) => entry.offset,
        None => 0,
    }
}

// A record keeps 16 segments.
pub(crate) fn at_most_16(n: u32) -> u32
    ensures { result ≡ at_most16 n }
{
    if 16 < n {
        return 16;
    }
    n
}

// The address that the tag at `entry` gives, 0 where it gives none.
pub(crate) fn indexed_address(at: u32, w: &[u8], base: u32, entry: u32) -> u32
    ensures { result ≡ address_or0 (run at (tag_to_address base (word_at at w.now entry)) w.now).0 }
{
    let tag = SegmentTag(peek::word(at, w, entry));
    peek::tag_to_address(at, w, base, tag).unwrap_or(0)
}

// Begins the module's record with its own name.
pub(crate) fn begin(
    at: u32,
    w: &[u8],
    base: u32,
    size: u32,
    auto_link: bool,
    records: &mut [u8],
    names: &mut [u8],
) -> Option<Draft>
    ensures { (result, records.new, names.new)
        ≡ begin_record records.old names.old base size auto_link (own_name at w.now base) }
{
    let mut buffer = [0u8; 512];
    let place = peek::field(at, w, base, header::MODULE_NAME_OFFSET);
    let count = window::name::peek_name(at, w, place, &mut buffer);
    register::begin::begin_record(records, names, base, size, auto_link, &buffer[..count])
}
