// The named exports of one record: their words, triples of name offset, length and address, and the name bytes.
ghost use Rattle.std.specs.Prelude.{◌≡◌, ◌/◌, ◌<◌, true, length};
ghost use Rattle.register.specs.Words.{same, words_in};
ghost use Rattle.register.specs.Module.{find_export, ascending};
ghost use Rattle.register.specs.Decode.{exports_in, export_at};

use crate::words;
use std::cmp::Ordering;

// Whether two names are the same.
pub fn same_name(a: &[u8], b: &[u8]) -> bool
    ensures { result ≡ same a.now b.now }
{
    window::name::compare_names(a, b).is_eq()
}

// The name of export number k.
pub fn export_name<'a>(exports: &[u8], names: &'a [u8], k: usize) -> &'a [u8]
    requires { k < length exports.now / 12 }
    ensures { result.now ≡ (export_at (words_in exports.now) names.now k).name }
{
    words::name_part(
        names,
        words::word(exports, 3 * k),
        words::word(exports, 3 * k + 1),
    )
}

// Which of the exports, in ascending order of their names, has the name.
pub fn search_export(exports: &[u8], names: &[u8], name: &[u8]) -> Option<usize>
    requires { ascending (exports_in (words_in exports.now) names.now) ≡ true }
    ensures { result ≡ find_export (exports_in (words_in exports.now) names.now) name.now }
{
    let mut low: usize = 0;
    let mut high = exports.len() / 12;
    // No slice of keys stands there for `binary_search_by`: the exports are packed words.
    while low < high {
        let middle = low + (high - low) / 2;
        match window::name::compare_names(name, export_name(exports, names, middle)) {
            Ordering::Less => {
                high = middle;
            }
            Ordering::Equal => {
                return Some(middle);
            }
            Ordering::Greater => {
                low = middle + 1;
            }
        }
    }
    None
}
