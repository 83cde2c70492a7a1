// The places of a list, which the tables hold with a count of those that are there.
ghost use Rattle.std.specs.Prelude.{◌≡◌, Bool, length, get_or};
ghost use Rattle.std.specs.List.{list_all};
ghost use Rattle.rules.specs.Tables.{list_right};
ghost use Rattle.tables.specs.Tests.{Tests};

// Each place passes the test. There is no early end: tables that break a rule are rare.
pub(crate) fn every<T: Copy, P: Fn(T) -> bool>(list: &[T], test: P) -> bool
    requires { P.IsAlwaysCallable test }
    ensures { (p : T → Bool) → Tests (P.post test) p → result ≡ list_all p list.now }
{
    let mut keep = true;
    for x in list {
        keep &= test(*x);
    }
    keep
}

// The first `count` places are right and the others blank, and there are as many as are counted.
pub(crate) fn list_right<T: Copy, R: Fn(T) -> bool, B: Fn(T) -> bool>(
    list: &[T],
    count: u8,
    right: R,
    blank: B,
) -> bool
    requires right_callable { R.IsAlwaysCallable right }
    requires blank_callable { B.IsAlwaysCallable blank }
    ensures { (p q : T → Bool) (d : T) → Tests (R.post right) p → Tests (B.post blank) q → result ≡ list_right (length list.now) count (λ i. p (get_or list.now i d)) (λ i. q (get_or list.now i d)) }
{
    match list.split_at_checked(usize::from(count)) {
        Some((there, behind)) => every(there, right) & every(behind, blank),
        None => false,
    }
}
