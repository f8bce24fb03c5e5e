// The header's CRS words.
ghost use Rattle.std.specs.Prelude.{◌≡◌};
ghost use Rattle.register.specs.Change.Bytes.{set_crs};

// Makes the CRS known, with its base; bytes too few for a header stay as they are.
pub fn set_crs(records: &mut [u8], base: u32)
    ensures { records.new ≡ set_crs records.old base }
{
    if records.len() < 32 {
        return;
    }
    window::store32(records, 4, 1);
    window::store32(records, 8, base);
}
