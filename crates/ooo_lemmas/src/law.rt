//! One law on each subject, for numbers: functions that do nothing, whose clauses are laws.

ghost use Rattle.std.specs.Prelude.{◌≡◌, ◌++◌, ◌<◌, ◌≤◌, ◌↔◌, ℕ, Bool, true, List, Result, Some, map, slice_get, AllPairs, Contains, IsTrue, is_ok};
ghost use Rattle.std.specs.List.{AllByRecursion};
ghost use Rattle.std.specs.List.Sorted.{IsBinarySearchResult};
ghost use Rattle.std.specs.Ordering.{nat_cmp};
ghost use Rattle.ooo_lemmas.specs.Counting.{count};

/// Where all numbers of two lists together are below a bound, those of the first are.
pub fn each()
    ensures { (n : ℕ) (xs ys : List ℕ) → AllByRecursion (λ x. x < n) (xs ++ ys) →
        AllByRecursion (λ x. x < n) xs }
{}

/// What a list contains is contained, mapped, in the mapped list.
pub fn contained()
    ensures { (f : ℕ → ℕ) (xs : List ℕ) (x : ℕ) → Contains xs x → Contains (map f xs) (f x) }
{}

/// What stands at a place of a list stands there with another list behind it, too.
pub fn placed()
    ensures { (xs ys : List ℕ) (k x : ℕ) → slice_get xs k ≡ Some x →
        slice_get (xs ++ ys) k ≡ Some x }
{}

/// A binary search among ascending numbers finds just what is there.
pub fn ascending()
    ensures { (xs : List ℕ) (x : ℕ) (r : Result ℕ ℕ) → AllPairs (λ m n. m < n) xs →
        IsBinarySearchResult (λ y. nat_cmp y x) xs r → IsTrue (is_ok r) ↔ Contains xs x }
{}

/// A weaker test lets no fewer numbers pass.
pub fn counting()
    ensures { (p q : ℕ → Bool) (n : ℕ) → ((k : ℕ) → p k ≡ true → q k ≡ true) →
        count p n ≤ count q n }
{}
