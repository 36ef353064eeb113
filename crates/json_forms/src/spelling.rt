//! How far two words are apart.
ghost use Rattle.std.specs.Prelude.{◌≡◌, ◌≤◌, nat_eq, drop, length};
ghost use Rattle.std.specs.List.{common_prefix_len};
ghost use Rattle.names.specs.Equal.{same_text};
ghost use Rattle.json_forms.specs.Spelling.{one_apart, two_apart, but_for_a_letter};

/// Whether two words are the same but for one letter at most, which is exchanged, put in or left out.
#[tactic(auto, unfolding(crate::specs::Spelling::one_apart))]
pub(crate) fn one_apart(a: &[u8], b: &[u8]) -> bool
    ensures { result ≡ one_apart a.now b.now }
{
    let n = common_prefix_len(a, b);
    is_same_but_for_a_letter(&a[n..], &b[n..])
}

fn is_same_but_for_a_letter(a: &[u8], b: &[u8]) -> bool
    ensures { result ≡ but_for_a_letter same_text a.now b.now }
{
    tail(a) == tail(b) || a == tail(b) || tail(a) == b
}

/// Whether two words are the same but for two letters at most.
#[tactic(auto, unfolding(crate::specs::Spelling::two_apart))]
pub(crate) fn two_apart(a: &[u8], b: &[u8]) -> bool
    ensures { result ≡ two_apart a.now b.now }
{
    let n = common_prefix_len(a, b);
    is_one_apart_but_for_a_letter(&a[n..], &b[n..])
}

fn is_one_apart_but_for_a_letter(a: &[u8], b: &[u8]) -> bool
    ensures { result ≡ but_for_a_letter one_apart a.now b.now }
{
    one_apart(tail(a), tail(b)) || one_apart(a, tail(b)) || one_apart(tail(a), b)
}

fn tail(word: &[u8]) -> &[u8]
    ensures { result.now ≡ drop 1 word.now }
{
    match word {
        [] => word,
        [_, rest @ ..] => rest,
    }
}

// How many letters both begin with.
fn common_prefix_len(a: &[u8], b: &[u8]) -> usize
    ensures value { result ≡ common_prefix_len nat_eq a.now b.now }
    ensures within { result ≤ length a.now }
    ensures within_both { result ≤ length b.now }
{
    match a {
        [x, a_rest @ ..] => match b {
            [y, b_rest @ ..] => {
                if *x == *y {
                    1 + common_prefix_len(a_rest, b_rest)
                } else {
                    0
                }
            }
            [] => 0,
        },
        [] => 0,
    }
}
