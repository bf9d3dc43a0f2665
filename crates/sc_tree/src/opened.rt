//! The leaves that are open, the last of which is taken first.

ghost use Rattle.std.specs.Prelude.{◌≡◌, ◌≤◌, ◌<◌, ◌^◌, ◌+◌, [], ◌∷◌, MatchOption, reverse, slice_get};
ghost use Rattle.std.specs.Vec.{vec_len, vec_capacity};
ghost use Rattle.sc_tree.specs.Keeping.{is_nil};

/// Whether no leaf is open.
pub(crate) fn none_is_open(opened: &Vec<u64>) -> bool
    ensures { result ≡ is_nil (reverse opened.now.items) }
{
    opened.is_empty()
}

/// The leaf that is taken first, where there is one.
pub(crate) fn first_open(opened: &Vec<u64>) -> Option<u64>
    ensures { result ≡ slice_get (reverse opened.now.items) 0 }
{
    opened.last().copied()
}

/// Takes off the leaf that is taken first, where there is one.
pub(crate) fn take_open(opened: &mut Vec<u64>) -> Option<u64>
    ensures first { MatchOption result ((reverse opened.old.items ≡ []) × (reverse opened.new.items ≡ [])) (λ top. reverse opened.old.items ≡ top ∷ reverse opened.new.items) }
    ensures count { MatchOption result (vec_len opened.new ≡ vec_len opened.old) (λ _. vec_len opened.new + 1 ≡ vec_len opened.old) }
    ensures room { vec_capacity opened.new ≡ vec_capacity opened.old }
{
    opened.pop()
}

/// Adds a leaf and the next one, so that it is taken first, and then the next one. There is room for both.
pub(crate) fn open_two(opened: &mut Vec<u64>, leaf: u64)
    requires next { leaf + 1 < 2 ^ 64 }
    requires room { vec_len opened.old + 2 ≤ vec_capacity opened.old }
    ensures opened { reverse opened.new.items ≡ leaf ∷ (leaf + 1) ∷ reverse opened.old.items }
    ensures count { vec_len opened.new ≡ vec_len opened.old + 2 }
    ensures room { vec_capacity opened.new ≡ vec_capacity opened.old }
{
    opened.push_reserved(leaf + 1);
    opened.push_reserved(leaf);
}
