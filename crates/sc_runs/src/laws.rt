//! What the words of the contracts mean, as laws of lists of integers. Each function stands for the law that its contract states, and does nothing.

ghost use Rattle.std.specs.Prelude.{◌≡◌, ◌<◌, ◌+◌, ◌<ℤ◌, ◌≤ℤ◌, ◌+ℤ◌, ◌↔◌, ◌⊎◌, ℕ, ℤ, pos, List, ◌++◌, filter, IsTrue};
ghost use Rattle.std.specs.List.{Any, AllPairs, Contains};
ghost use Rattle.sc_base.specs.Integers.{lowest, highest, has_element, without, IsAscending, in_order, upward, fresh_values};
ghost use Rattle.sc_base.specs.Spans.{members, AreApart};
ghost use Rattle.sc_base.specs.declared.span.Span.{Span};
ghost use Rattle.sc_runs.specs.Fresh.{Precedes};

/// The test for an element answers whether the list contains it.
pub fn element_is_contained()
    ensures { (xs : List ℤ) (x : ℤ) → IsTrue (has_element xs x) ↔ Contains xs x }
{}

/// A number is in the union exactly where it is in one of the two lists.
pub fn union_has_either()
    ensures { (xs ys : List ℤ) (x : ℤ) → Contains (in_order (xs ++ without ys xs)) x ↔ (Contains xs x ⊎ Contains ys x) }
{}

/// A number is in the intersection exactly where it is in both lists.
pub fn inter_has_both()
    ensures { (xs ys : List ℤ) (x : ℤ) → Contains (filter (has_element ys) xs) x ↔ (Contains xs x × Contains ys x) }
{}

/// A number is in the difference exactly where it is in the first list and not in the second.
pub fn minus_has_the_rest()
    ensures { (xs ys : List ℤ) (x : ℤ) → Contains (without xs ys) x ↔ (Contains xs x × (Contains ys x → ⊥)) }
{}

/// Union, intersection and difference of ascending lists are ascending.
pub fn results_are_ascending()
    ensures union { (xs ys : List ℤ) → IsAscending (in_order (xs ++ without ys xs)) }
    ensures inter { (xs ys : List ℤ) → IsAscending xs → IsAscending (filter (has_element ys) xs) }
    ensures minus { (xs ys : List ℤ) → IsAscending xs → IsAscending (without xs ys) }
{}

/// A list in order is ascending, and has the elements of the list.
pub fn in_order_sorts()
    ensures ascending { (xs : List ℤ) → IsAscending (in_order xs) }
    ensures elements { (xs : List ℤ) (x : ℤ) → Contains (in_order xs) x ↔ Contains xs x }
{}

/// Each element of an ascending list is below all later ones.
pub fn ascending_by_pairs()
    ensures { (xs : List ℤ) → IsAscending xs ↔ AllPairs (λ x y. x <ℤ y) xs }
{}

/// Two ascending lists with the same elements are equal.
pub fn ascending_lists_are_equal()
    ensures { (xs ys : List ℤ) → IsAscending xs → IsAscending ys → ((x : ℤ) → Contains xs x ↔ Contains ys x) → xs ≡ ys }
{}

/// The numbers from `low` upward, `count` of them, are the ascending list of those from `low` up to, and without, `low + count`.
pub fn upward_counts()
    ensures ascending { (low : ℤ) (count : ℕ) → IsAscending (upward low count) }
    ensures elements { (low : ℤ) (count : ℕ) (x : ℤ) → Contains (upward low count) x ↔ ((low ≤ℤ x) × (x <ℤ (low +ℤ pos count))) }
{}

/// The members of spans that are apart are the ascending list of the numbers that lie in a span, and no two such lists of spans have the same members.
pub fn members_lie_in_spans()
    ensures ascending { (spans : List Span) → AreApart spans → IsAscending (members spans) }
    ensures elements { (spans : List Span) (x : ℤ) → AreApart spans → Contains (members spans) x ↔ Any (λ (s : Span). (s.low ≤ℤ x) × (x ≤ℤ s.high)) spans }
    ensures unique { (ss ts : List Span) → AreApart ss → AreApart ts → members ss ≡ members ts → ss ≡ ts }
{}

/// The fresh numbers are those of 128 bits outside the list, in the order 0, 1, 2 and so on, then -1, -2 and so on.
pub fn fresh_values_lie_outside()
    ensures elements { (xs : List ℤ) (x : ℤ) → Contains (fresh_values xs) x ↔ ((lowest ≤ℤ x) × (x ≤ℤ highest) × (Contains xs x → ⊥)) }
    ensures order { (xs : List ℤ) → AllPairs Precedes (fresh_values xs) }
{}
