// Header fields of a module, and where an entry of a table stands.
ghost use Rattle.std.specs.Prelude.{◌≡◌};
ghost use Rattle.window.specs.Trace.{run_t};
ghost use Rattle.layout.specs.Segments.{field, set_field, entry_at};

// Reads one header field of the module at base.
pub fn field(at: u32, w: &[u8], trace: &mut [u8], base: u32, offset: u32) -> u32
    ensures { (result, (w.now, trace.new)) ≡ run_t at (field base offset) (w.now, trace.old) }
{
    window::read32(at, w, trace, std::num::wrapping_add_u32(base, offset))
}

pub fn set_field(at: u32, w: &mut [u8], trace: &mut [u8], base: u32, offset: u32, value: u32)
    ensures { (w.new, trace.new) ≡ (run_t at (set_field base offset value) (w.old, trace.old)).1 }
{
    window::write32(
        at,
        w,
        trace,
        std::num::wrapping_add_u32(base, offset),
        value,
    );
}

// The address of an entry of a table.
pub fn entry_address(table: u32, index: u32, size: u32) -> u32
    ensures { result ≡ entry_at table index size }
{
    let product = (index as u64) * (size as u64);
    std::num::wrapping_add_u32(table, (product % 0x1_0000_0000) as u32)
}
