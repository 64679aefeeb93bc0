ghost use Rattle.std.specs.Prelude.{◌↔◌, IsTrue, Contains};
ghost use Rattle.ooo_access.specs.Access.{AreAscending};
ghost use Rattle.ooo_conflicts.specs.Clashes.{Share};

use sqlite_items::Items;

// Whether two ascending lists have a number in common: each number of the shorter one is sought in the other.
pub(crate) fn share(a: &Items<u32>, b: &Items<u32>) -> bool
    requires first { AreAscending a.now }
    requires second { AreAscending b.now }
    ensures { IsTrue result ↔ Share a.now b.now }
{
    if a.len() <= b.len() {
        has_any(b.as_slice(), a.as_slice())
    } else {
        has_any(a.as_slice(), b.as_slice())
    }
}

// Whether one of these numbers is among ascending ones.
fn has_any(ascending: &[u32], numbers: &[u32]) -> bool
    requires { AreAscending ascending.now }
    ensures { IsTrue result ↔ Share numbers.now ascending.now }
{
    for n in numbers {
        if has_number(ascending, *n) {
            return true;
        }
    }
    false
}

// Whether a number is among ascending ones.
fn has_number(numbers: &[u32], n: u32) -> bool
    requires { AreAscending numbers.now }
    ensures { IsTrue result ↔ Contains numbers.now n }
{
    numbers.binary_search(&n).is_ok()
}
