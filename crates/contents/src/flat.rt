// Items of so many words each at the front of words: so many of them, or a list, which has its length in front.
ghost use Rattle.std.specs.Prelude.{◌≡◌, ◌<◌, length, IfSome};
ghost use Rattle.book.specs.Words.{read_many, read_list};
ghost use Rattle.contents.specs.Flat.{read_word, got_of};

pub(crate) fn many<const N: usize>(words: &[u64], count: usize) -> Option<(&[[u64; N]], &[u64])>
    requires { 0 < N }
    ensures items { read_many (read_many read_word N) count words.now ≡ got_of result }
    ensures count { IfSome result (λ p. length p.0.now ≡ count) }
{
    let (items, _) = words.as_chunks::<N>();
    let items = items.get(..count)?;
    Some((items, &words[count * N..]))
}

pub(crate) fn list<const N: usize>(words: &[u64]) -> Option<(&[[u64; N]], &[u64])>
    requires { 0 < N }
    ensures { read_list (read_many read_word N) words.now ≡ got_of result }
{
    let (count, rest) = words.split_first()?;
    many(rest, *count as usize)
}
