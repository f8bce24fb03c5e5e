// The lines of a header, one for each field.
ghost use Rattle.std.specs.Prelude.{◌≡◌, ◌++◌, ◌<◌};
ghost use Rattle.window.specs.Access.{run};
ghost use Rattle.layout.specs.Header.{magic};
ghost use Rattle.layout.specs.Segments.{field};
ghost use Rattle.text.specs.Text.{bytes};
ghost use Rattle.header.specs.Lines.{is_module, line_at, words_length};

use layout::header;

// The two magics, as words.
const CRO0: u32 = 0x304F_5243;

const CRS0: u32 = 0x3053_5243;

// Whether n bytes are enough for a header, and the one at base has one of the two magics.
pub fn is_module(at: u32, w: &[u8], base: u32, n: usize) -> bool
    ensures { result ≡ is_module n (run at (field base magic) w.now).0 }
{
    if n < header::SIZE as usize {
        return false;
    }
    let magic = layout::peek::field(at, w, base, header::MAGIC);
    if magic == CRO0 {
        return true;
    }
    magic == CRS0
}

// How many lines there are.
pub const LINES: u32 = 42;

// The offset of the field that line k shows. Four reserved words stand before the eighth.
pub fn line_offset(k: u32) -> u32
    requires { k < 42 }
    ensures { result ≡ (line_at k).1 }
{
    if k < 7 {
        header::MAGIC + 4 * k
    } else {
        header::ON_UNRESOLVED_SEGMENT_TAG + 4 * (k - 7)
    }
}

// The names of the fields in the order of the lines, a space after each.
const NAMES: [u8; 912] = *b"magic name_offset next_cro previous_cro file_size bss_size fixed_size \
    on_unresolved_segment_tag code_offset code_size data_offset data_size \
    module_name_offset module_name_size segment_table_offset segment_num \
    export_named_symbol_table_offset export_named_symbol_num \
    export_indexed_symbol_table_offset export_indexed_symbol_num \
    export_strings_offset export_strings_size export_tree_table_offset export_tree_num \
    import_module_table_offset import_module_num \
    external_relocation_table_offset external_relocation_num \
    import_named_symbol_table_offset import_named_symbol_num \
    import_indexed_symbol_table_offset import_indexed_symbol_num \
    import_anonymous_symbol_table_offset import_anonymous_symbol_num \
    import_strings_offset import_strings_size \
    static_anonymous_symbol_table_offset static_anonymous_symbol_num \
    internal_relocation_table_offset internal_relocation_num \
    static_relocation_table_offset static_relocation_num ";

// How many bytes the first k words of `text` take, each with the space after it.
fn words_length(text: &[u8], k: u32) -> usize
    ensures { result ≡ words_length k text.now }
{
    let mut left = k;
    for (i, c) in text.iter().enumerate() {
        if left == 0 {
            return i;
        }
        if *c == b' ' {
            left -= 1;
        }
    }
    text.len()
}

// The name of the field that line k shows, and a space.
pub fn name(k: u32) -> &'static [u8]
    requires { k < 42 }
    ensures { result.now ≡ bytes (line_at k).0 ++ bytes " " }
{
    let names: &'static [u8] = &NAMES;
    let from = words_length(names, k);
    let to = words_length(names, k + 1);
    &names[from..to]
}
