// Whether the names of a record's exports stand in ascending order.
ghost use Rattle.std.specs.Prelude.{◌≡◌};
ghost use Rattle.window.specs.Name.{order_of};
ghost use Rattle.register.specs.Words.{words_in};
ghost use Rattle.std.specs.Ordering.{is_lt};
ghost use Rattle.register.specs.Module.{ascending};
ghost use Rattle.register.specs.Decode.{exports_in};

use register::exports;
use std::cmp::Ordering;

// Whether name a stands before name b.
fn is_before(a: &[u8], b: &[u8]) -> bool
    ensures { result ≡ is_lt (order_of a.now b.now) }
{
    window::name::compare_names(a, b).is_lt()
}

// Whether each name stands before the next: one comparison an export.
pub(crate) fn ascending_exports(exports: &[u8], names: &[u8]) -> bool
    ensures { result ≡ ascending (exports_in (words_in exports.now) names.now) }
{
    let n = exports.len() / 12;
    if n == 0 {
        return true;
    }
    let mut last = exports::export_name(exports, names, 0);
    for k in 1..n {
        let name = exports::export_name(exports, names, k);
        if !is_before(last, name) {
            return false;
        }
        last = name;
    }
    true
}
