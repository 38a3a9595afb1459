//! What changes in links and heads as a key comes or goes.

ghost use Rattle.std.specs.Prelude.{◌≡◌, ℕ, ◌+◌, ◌<◌, ◌≤◌, suc, List, [], ◌∷◌, ◌++◌, length};
ghost use Rattle.asset_chains.specs.Linked.{decoded, link_at, with_after, with_before, first_code, last_code, head_of};

use crate::heads::Head;
use crate::links::Link;

/// Returns the number that a stored one stands for.
pub(crate) fn decoded(stored: u32) -> Option<usize>
    ensures { result ≡ decoded stored }
{
    if stored == 0 {
        None
    } else {
        Some(stored as usize - 1)
    }
}

/// Makes `after` what follows the key that is stored as `at`, if there is one.
pub(crate) fn set_after(links: &mut Vec<Link>, at: u32, after: u32)
    requires { at ≤ length links.old.items }
    ensures size { length links.new.items ≡ length links.old.items }
    ensures linked { (k : ℕ) → link_at links.new.items k ≡ with_after at after (link_at links.old.items) k }
{
    if at > 0 {
        let link = &mut links[at as usize - 1];
        link.after = after;
    }
}

/// Makes `before` what precedes the key that is stored as `at`, if there is one.
pub(crate) fn set_before(links: &mut Vec<Link>, at: u32, before: u32)
    requires { at ≤ length links.old.items }
    ensures size { length links.new.items ≡ length links.old.items }
    ensures linked { (k : ℕ) → link_at links.new.items k ≡ with_before at before (link_at links.old.items) k }
{
    if at > 0 {
        let link = &mut links[at as usize - 1];
        link.before = before;
    }
}

/// Returns the head of a chain with one more key at its end.
pub(crate) fn with_last(head: Head, key: u32) -> Head
    requires { head.count < u32.MAX }
    ensures { (keys : List ℕ) (k : ℕ) → head ≡ head_of keys → key ≡ suc k → result ≡ head_of (keys ++ k ∷ []) }
{
    Head {
        first: if head.last == 0 { key } else { head.first },
        last: key,
        count: head.count + 1,
    }
}

/// Returns the head of a chain without the key that has this link.
pub(crate) fn without_key(head: Head, link: Link) -> Head
    requires { 0 < head.count }
    ensures { (front back : List ℕ) (k : ℕ) → head ≡ head_of (front ++ k ∷ back) →
        link.before ≡ last_code 0 front → link.after ≡ first_code back 0 → result ≡ head_of (front ++ back) }
{
    Head {
        first: if link.before == 0 {
            link.after
        } else {
            head.first
        },
        last: if link.after == 0 {
            link.before
        } else {
            head.last
        },
        count: head.count - 1,
    }
}
