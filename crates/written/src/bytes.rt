// Words as bytes, the high byte first, and bytes as words.
ghost use Rattle.std.specs.Prelude.{◌≡◌, ◌+◌, ◌*◌, ◌≤◌, ◌++◌, length, MatchResult};
ghost use Rattle.book.specs.Words.{just, words_of, words_bytes};
ghost use Rattle.written.specs.Bytes.{IsRefused};

use tables::Table;

// Why bytes are no words that there is room for.
#[derive(Clone, Copy, PartialEq, Eq, Debug)]
pub enum NoWords {
    // they are no whole words
    Ragged,
    // more words than there is room for
    TooMany,
}

// The words of bytes, in place of all.
pub fn words_from(bytes: &[u8], to: &mut Table<'_, u64>) -> Result<(), NoWords>
    ensures words { MatchResult result (λ _. words_of bytes.now ≡ just to.new.items) (λ reason. IsRefused bytes.now to.old to.new reason) }
    ensures room { to.new.room ≡ to.old.room }
{
    let (chunks, rest) = bytes.as_chunks::<8>();
    if !rest.is_empty() {
        return Err(NoWords::Ragged);
    }
    if chunks.len() > to.room() {
        return Err(NoWords::TooMany);
    }
    to.assign(&[]);
    for chunk in chunks {
        to.push(u64::from_be_bytes(*chunk));
    }
    Ok(())
}

// The bytes of words, behind what there is.
pub fn bytes_from(words: &[u64], to: &mut Table<'_, u8>)
    requires { length to.old.items + 8 * length words.now ≤ to.old.room }
    ensures items { to.new.items ≡ to.old.items ++ words_bytes words.now }
    ensures long { length to.new.items ≡ length to.old.items + 8 * length words.now }
    ensures room { to.new.room ≡ to.old.room }
{
    for word in words {
        to.extend_from_slice(&word.to_be_bytes());
    }
}
